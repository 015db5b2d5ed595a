// An estimate of a reciprocal square root in fixed point. No result depends on how good it is: from_guess.rt checks the
// root that it works out from it.

ghost use Rattle.std.specs.Prelude.{◌^◌, ◌<◌};

// The parabolas c0 - (c1 - c2 * z / 2^26) * z / 2^17 that meet 2^47 / √t at the three Chebyshev points of the 2^27
// numbers t = i * 2^27 + z, for each i, packed: c0 in 32 binary digits, c1 in 18, c2 in 14. None is needed below i = 8,
// where m is below 2^52.
static PARABOLAS: [u64; 32] = [
    0,
    0,
    0,
    0,
    0,
    0,
    0,
    0,
    0xfffe_ee8d_feca_a954,
    0xf15b_36cc_d5ba_5f49,
    0xe4f8_ad16_b69b_d85a,
    0xda50_ec5d_9e5d_1365,
    0xd105_a5e3_8b0a_cfbe,
    0xc8d2_7604_7b59_8cfc,
    0xc184_6604_6e66_8adc,
    0xbaf4_99a8_6391_0931,
    0xb504_d919_5a65_07dc,
    0xaf9d_3e04_528c_86c9,
    0xaaaa_993a_4bc6_85e8,
    0xa61d_50ce_45e1_052d,
    0xa1e8_8eed_40b5_c491,
    0x9e01_a842_3c25_c40e,
    0x9a5f_a928_3819_039f,
    0x96fa_feac_347b_433f,
    0x93cd_33b0_313d_02ed,
    0x90d0_bcee_2e51_02a6,
    0x8e00_d016_2bac_0267,
    0x8b59_4359_2945_0231,
    0x88d6_735b_2714_8201,
    0x8675_2e2b_2513_c1d7,
    0x8432_a216_233d_41b1,
    0x820c_4f92_218c_818f,
];

// A first estimate of 2^58 / √m, where t is m / 2^22: for an m from 2^52 on within one part in 61000.
fn first_estimate(t: u32) -> u32 {
    let c = PARABOLAS[(t >> 27) as usize];
    let z = u64::from(t % 0x800_0000);
    let slope = (0x4_0000 + (c >> 14) % 0x4_0000 - ((c % 0x4000 * z) >> 26)) % 0x4_0000;
    ((0x1_0000_0000 + (c >> 32) - ((slope * z) >> 17)) % 0x1_0000_0000) as u32
}

// A better estimate than y of 2^58 / √m, by one step of Newton's, where t is m / 2^22.
fn refined(t: u32, y: u32) -> u32 {
    let y = u64::from(y);
    let d = (((u64::from(t) * y) >> 32) * y) >> 32;
    let u = (0x1_bfff_fffe - d) % 0x1_0000_0000;
    (((y * u) >> 31) % 0x1_0000_0000) as u32
}

// An estimate of 2^58 / √m, for an m from 2^52 on within a few parts in 2^30.
pub fn reciprocal_root(m: u64) -> u32
    requires { m < 2 ^ 54 }
{
    let t = (m >> 22) as u32;
    refined(t, first_estimate(t))
}
