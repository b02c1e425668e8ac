// The two searches by name: bisection with its narrow rule, or Brent's.
use crate::bisection::Width;

#[derive(Clone, Copy)]
pub enum Method {
    ByBisection(Width),
    ByBrent,
}
