// Document 01's readings at the edges, and the neighbours that a careful reader would try.
#![tactic(auto)]

mod calls;
mod helpers;
mod limits;
mod log;

use std::io;

fn main(rt: HostRuntime) -> io::Result<()> {
    helpers::all(&rt)?;
    calls::readings10to12(&rt)?;
    calls::not_finite(&rt)?;
    calls::least(&rt)?;
    limits::rule_T(&rt)?;
    limits::rule_p(&rt)?;
    limits::rule_5(&rt)?;
    limits::saturation(&rt)?;
    calls::saturation(&rt)?;
    limits::b23(&rt)?;
    calls::b23(&rt)?;
    calls::readings13to16(&rt)?;
    calls::step_limits(&rt)?;
    calls::order(&rt)?;
    calls::places(&rt)?;
    limits::ranges_p(&rt)?;
    limits::ranges_T(&rt)?;
    limits::ranges_T_5(&rt)?;
    calls::outside(&rt)?;
    calls::inside(&rt)?;
    calls::region5(&rt)?;
    calls::region5_h_s(&rt)?;
    log::filled(&rt)?;
    log::filled_5(&rt)?;
    log::refused(&rt)?;
    log::empty(&rt)?;
    Ok(())
}
