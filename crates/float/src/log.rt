// The natural logarithm of a double from 1.0e-8 to 101, to less than 2^-48: in whole numbers, with one rounding at the end.
ghost use Rattle.std.specs.Prelude.{◌≡◌, ◌+◌, ◌-◌, ◌*◌, ◌/◌, ◌%◌, ◌^◌, ◌≤◌, ◌<◌};
ghost use Rattle.float.specs.Log.{reciprocal, minus_log, fallen as fallen_of, scaled as scaled_of, difference as difference_of, logarithm};

// a * b / 2^64, cut to a whole number. The compiler knows these lines as one multiplication. They stay, since a must-fail edit loses a carry in them (ln_carry_lost).
fn high(a: u64, b: u64) -> u64
    ensures { result ≡ a * b / 2 ^ 64 }
{
    let a1 = a / 0x1_0000_0000;
    let a0 = a % 0x1_0000_0000;
    let b1 = b / 0x1_0000_0000;
    let b0 = b % 0x1_0000_0000;
    let mid = a1 * b0 + a0 * b0 / 0x1_0000_0000;
    let low = a0 * b1 + mid % 0x1_0000_0000;
    a1 * b1 + mid / 0x1_0000_0000 + low / 0x1_0000_0000
}

// Of the numbers from 1 + j/64 to 1 + (j + 1)/64: a short reciprocal in units of 2^-8, times 2^56, plus minus its logarithm in units of 2^-56. The arms are written by tools/rows.
fn row(j: u64) -> u64
    requires { j < 64 }
    ensures { (result / 2 ^ 56 ≡ reciprocal j) × (result % 2 ^ 56 ≡ minus_log (reciprocal j)) }
{
    match j {
        0 => 0xfc_0408159_624d611,
        1 => 0xf8_0820aec_4f3a222,
        2 => 0xf4_0c4a550_a4fd9a1,
        3 => 0xf0_108598b_59e3a06,
        4 => 0xed_13bdf5a_7d1ee64,
        5 => 0xea_1700d30_aeac0e0,
        6 => 0xe6_1b6ac88_dad5b1b,
        7 => 0xe3_1ec7398_30a111f,
        8 => 0xe0_222f1d0_44fc8f7,
        9 => 0xdd_25a2c21_90d0273,
        10 => 0xda_29227b0_6676ac1,
        11 => 0xd7_2cae9d7_d182673,
        12 => 0xd4_304782c_aa34783,
        13 => 0xd2_32b4b5b_9ee02fe,
        14 => 0xcf_3663b0a_eb79c79,
        15 => 0xcc_3a206fe_4cabcf6,
        16 => 0xca_3ca61df_fce2024,
        17 => 0xc7_407ab95_89b1a43,
        18 => 0xc5_4310b59_d858b8c,
        19 => 0xc3_45ad732_eb3edcd,
        20 => 0xc0_49a5884_4d36e49,
        21 => 0xbe_4c53c78_74d738e,
        22 => 0xbc_4f0949d_cccc60e,
        23 => 0xba_51c6370_9c7106c,
        24 => 0xb8_548ab81_ce28f5f,
        25 => 0xb6_5756f77_d657cbe,
        26 => 0xb4_5a2b20f_a71a850,
        27 => 0xb2_5d0761d_b19eec5,
        28 => 0xb0_5febe8e_f60546f,
        29 => 0xae_62d8e6a_22cb7d2,
        30 => 0xac_65ce8d0_c4d5ab7,
        31 => 0xaa_68cd100_893e9e3,
        32 => 0xa8_6bd4a54_9233741,
        33 => 0xa7_6d5be81_118a425,
        34 => 0xa5_707181a_4fe8e76,
        35 => 0xa3_7390bc6_0191d0c,
        36 => 0xa2_7524091_b7be9ad,
        37 => 0xa0_7852286_89c9b36,
        38 => 0x9f_79ed0b0_f76b5cd,
        39 => 0x9d_7d2a9fb_80c64b3,
        40 => 0x9c_7ecd62b_de92210,
        41 => 0x9a_821b05f_3b01d67,
        42 => 0x99_83c5f82_99e2b40,
        43 => 0x97_87244c3_08e670a,
        44 => 0x96_88d7c11_e3ad53c,
        45 => 0x94_8c47720_791e533,
        46 => 0x93_8e03c24_d730039,
        47 => 0x92_8fc31af_e30b2c6,
        48 => 0x90_934b108_9a6dc93,
        49 => 0x8f_9513c36_8760836,
        50 => 0x8e_96dfaab_d86fa16,
        51 => 0x8d_98aed22_1a03458,
        52 => 0x8c_9a81456_cec642d,
        53 => 0x8a_9e30406_1b5fda9,
        54 => 0x89_a00ce10_92e5498,
        55 => 0x88_a1ecff9_7c91e26,
        56 => 0x87_a3d0a93_f45169a,
        57 => 0x86_a5b7eb7_cb860fb,
        58 => 0x85_a7a2d41_ad270c9,
        59 => 0x84_a991713_433c2b9,
        60 => 0x83_ab83d13_5dc6332,
        61 => 0x82_ad7a02e_1b24efd,
        62 => 0x81_af74155_120c900,
        _ => 0x80_b17217f_7d1cf79,
    }
}

// z + z^2 / 2 + .. + z^8 / 8, of a z up to 1/53, in units of 2^-64.
fn fallen(z: u64) -> u64
    requires { z * 53 ≤ 2 ^ 64 }
    ensures { result ≡ fallen_of z }
{
    let mut t = z;
    let mut s: u64 = 0;
    for j in 0..8 {
        s += t / (j + 1);
        t = high(t, z);
    }
    s
}

// n * 2^-48
fn scaled(n: u64) -> f64
    requires { n ≤ 2 ^ 53 }
    ensures { result ≡ scaled_of n }
{
    (n as f64) * 3.552713678800501e-15
}

fn difference(p: u64, q: u64) -> f64
    requires { (p < 2 ^ 60 + 2 ^ 60) × (q < 2 ^ 60 + 2 ^ 60) }
    ensures { result ≡ difference_of p q }
{
    if q <= p {
        scaled((p - q + 128) / 256)
    } else {
        -scaled((q - p + 128) / 256)
    }
}

// One result for each x; from 1.0e-8 to 101 it is less than 2^-48 from the logarithm, and elsewhere NaN.
pub fn ln(x: f64) -> f64
    ensures { result ≡ logarithm x }
{
    if 1.0e-8 <= x {
        if x <= 101.0 {
            let b = f64::to_bits(x);
            let e = b / 0x10_0000_0000_0000;
            let t = b % 0x10_0000_0000_0000;
            let c = row(t / 0x4000_0000_0000);
            let z = 0x1000_0000_0000_0000 - (0x10_0000_0000_0000 + t) * (c / 0x100_0000_0000_0000);
            let s = fallen(z * 16) / 256;
            difference(
                c % 0x100_0000_0000_0000 + e.saturating_sub(1023) * 49946518145322873,
                s + 1023u64.saturating_sub(e) * 49946518145322873,
            )
        } else {
            0.0 / 0.0
        }
    } else {
        0.0 / 0.0
    }
}
