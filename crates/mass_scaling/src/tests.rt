//! The rule of tolerance and the windows that it gives, at values computed from the rule in exact numbers.
ghost use Rattle.std.specs.Prelude.{◌≡◌};

use super::*;

const DALTON: u64 = 1_000_000_000_000;

const ATOM_A: i128 = 10_000_000_000_000;

const ATOM_B: i128 = 10_000_010_000_000;

fn neutral(shift: i128) -> Charged
    ensures { result ≡ record { copies = 1; divisor = 1; shift = shift } }
{
    Charged {
        copies: 1,
        divisor: 1,
        shift,
    }
}

fn charged(copies: u32, divisor: u32, shift: i128) -> Charged
    ensures { result ≡ record { copies = copies; divisor = divisor; shift = shift } }
{
    Charged {
        copies,
        divisor,
        shift,
    }
}

fn ppm(thousandths: u64) -> Tolerance
    ensures { result ≡ Tolerance.Ppm thousandths }
{
    Tolerance::Ppm { thousandths }
}

fn da(units: u64) -> Tolerance
    ensures { result ≡ Tolerance.Da units }
{
    Tolerance::Da { units }
}

fn calculated(thousandths: u64) -> Tolerance
    ensures { result ≡ Tolerance.PpmCalculated thousandths }
{
    Tolerance::PpmCalculated { thousandths }
}

#[test]
fn an_ion_is_within_tolerance_up_to_the_last_unit(rt: HostRuntime) {
    let cases = [
        (within(ATOM_B, 10 * DALTON, ppm(1_000), 1), true),
        (within(ATOM_B + 1, 10 * DALTON, ppm(1_000), 1), false),
        (within(ATOM_A, 10_000_010_000_001, ppm(1_000), 1), true),
        (
            within(ATOM_A, 10_000_010_000_001, calculated(1_000), 1),
            false,
        ),
        (
            within(ATOM_A, 10_000_010_000_000, calculated(1_000), 1),
            true,
        ),
        (
            within(ATOM_B, 10_000_010_000_000, calculated(1_000), 1),
            true,
        ),
        (within(2 * ATOM_B, 10 * DALTON, da(10_000_000), 2), true),
        (within(2 * ATOM_B, 10 * DALTON, da(9_999_999), 2), false),
        (within(3, 1, da(2), 1), true),
        (within(-1, 1, da(2), 1), true),
        (within(-2, 1, da(2), 1), false),
    ];
    for (place, (found, wanted)) in cases.iter().enumerate() {
        assert_eq!(rt; *found, *wanted, "case {place}");
    }
}

#[test]
fn an_ion_that_weighs_nothing_is_never_within_its_own_ppm(rt: HostRuntime) {
    let cases = [
        within(0, 1, calculated(1_000_000), 1),
        within(0, 1, calculated(0), 1),
        within(-1, 1, calculated(1_000_000), 1),
        within(
            -9_000_000_000_000_000_000,
            20_000 * DALTON,
            calculated(1_000_000),
            30,
        ),
    ];
    for found in cases {
        assert!(rt; !found);
    }
}

#[test]
fn the_rule_holds_at_the_largest_numbers(rt: HostRuntime) {
    let cases = [
        (
            within(600_600_000_000_000_000, 20_000 * DALTON, ppm(1_000_000), 30),
            true,
        ),
        (
            within(600_600_000_000_000_001, 20_000 * DALTON, ppm(1_000_000), 30),
            false,
        ),
        (
            within(
                600_300_000_000_000_000,
                20_000 * DALTON,
                da(10 * DALTON),
                30,
            ),
            true,
        ),
        (
            within(
                600_300_000_000_000_001,
                20_000 * DALTON,
                da(10 * DALTON),
                30,
            ),
            false,
        ),
        (
            within(
                600_600_600_600_600_600,
                20_000 * DALTON,
                calculated(1_000_000),
                30,
            ),
            true,
        ),
        (
            within(
                600_600_600_600_600_601,
                20_000 * DALTON,
                calculated(1_000_000),
                30,
            ),
            false,
        ),
        (
            within(
                9_000_000_000_000_000_000,
                20_000 * DALTON,
                calculated(1_000_000),
                30,
            ),
            false,
        ),
        (
            within(
                -9_000_000_000_000_000_000,
                20_000 * DALTON,
                ppm(1_000_000),
                30,
            ),
            false,
        ),
    ];
    for (place, (found, wanted)) in cases.iter().enumerate() {
        assert_eq!(rt; *found, *wanted, "case {place}");
    }
}

fn masses(lo: u64, hi: u64) -> Option<Window> {
    Some(Window { lo, hi })
}

#[test]
fn a_window_goes_from_the_least_to_the_greatest_mass(rt: HostRuntime) {
    let cases = [
        (window_of(DALTON, ppm(0), neutral(2_000_000_000_000)), None),
        (
            window_of(DALTON, da(2 * DALTON), neutral(0)),
            masses(1, 3 * DALTON),
        ),
        (
            window_of(10 * DALTON, ppm(1_000), neutral(0)),
            masses(9_999_990_000_000, 10_000_010_000_000),
        ),
        (
            window_of(10_000_010_000_000, calculated(1_000), neutral(0)),
            masses(10_000_000_000_000, 10_000_020_000_020),
        ),
        (
            window_of(10_000_010_000_001, calculated(1_000), neutral(0)),
            masses(10_000_000_000_001, 10_000_020_000_021),
        ),
        (
            window_of(1, calculated(1_000_000), neutral(-5)),
            masses(6, 6),
        ),
        (
            window_of(
                203_052_600_000_000,
                ppm(5_000),
                charged(2, 2, 45_978_441_404_182),
            ),
            masses(180_062_364_034_909, 180_064_394_560_909),
        ),
        (
            window_of(1, da(10 * DALTON), charged(4, 30, 299_999_999_999_996)),
            masses(1, 8),
        ),
        (
            window_of(1, da(10 * DALTON), charged(4, 30, 300_000_000_000_026)),
            masses(1, 1),
        ),
        (
            window_of(1, da(10 * DALTON), charged(4, 30, 300_000_000_000_027)),
            None,
        ),
    ];
    for (place, (found, wanted)) in cases.iter().enumerate() {
        assert_eq!(rt; *found, *wanted, "case {place}");
    }
}

#[test]
fn a_window_is_exact_at_the_largest_numbers(rt: HostRuntime) {
    let least = -9_000_000_000_000_000_000;
    let cases = [
        (
            window_of(20_000 * DALTON, ppm(1_000_000), charged(1, 30, least)),
            masses(9_599_400_000_000_000_000, 9_600_600_000_000_000_000),
        ),
        (
            window_of(20_000 * DALTON, da(10 * DALTON), charged(1, 30, least)),
            masses(9_599_700_000_000_000_000, 9_600_300_000_000_000_000),
        ),
        (
            window_of(
                20_000 * DALTON,
                calculated(1_000_000),
                charged(1, 30, least),
            ),
            masses(9_599_400_599_400_599_401, 9_600_600_600_600_600_600),
        ),
        (
            window_of(20_000 * DALTON, calculated(1_000_000), charged(4, 1, least)),
            masses(2_254_995_004_995_004_996, 2_255_005_005_005_005_005),
        ),
        (
            window_of(1, da(10 * DALTON), charged(1, 30, least)),
            masses(8_999_700_000_000_000_030, 9_000_300_000_000_000_030),
        ),
        (
            window_of(20_000 * DALTON, ppm(1_000_000), charged(4, 30, -least)),
            None,
        ),
    ];
    for (place, (found, wanted)) in cases.iter().enumerate() {
        assert_eq!(rt; *found, *wanted, "case {place}");
    }
}

const OXYGEN: u64 = 15_994_914_619_570;

const CARBON: u64 = 12_000_000_000_000;

const HYDROGEN: u64 = 1_007_825_032_230;

#[test]
fn a_scale_has_the_finest_grain_that_its_least_mass_allows(
    rt: HostRuntime,
) -> Result<(), ScaleFault> {
    let light = scale_of(rt.alloc(), &[OXYGEN, CARBON, HYDROGEN])?;
    assert_eq!(rt; light.grain(), 10_000_000);
    assert_eq!(rt; light.scaled(), [1_599_491, 1_200_000, 100_782].as_slice());
    let carbon = scale_of(rt.alloc(), &[CARBON])?;
    assert_eq!(rt; carbon.grain(), 100_000_000);
    assert_eq!(rt; carbon.scaled(), [120_000].as_slice());
    let heavy = scale_of(rt.alloc(), &[1_000_000 * DALTON, 400 * DALTON])?;
    assert_eq!(rt; heavy.grain(), 1_000_000_000);
    assert_eq!(rt; heavy.scaled(), [1_000_000_000, 400_000].as_slice());
    let too_heavy = scale_of(rt.alloc(), &[400 * DALTON + 1]);
    assert!(rt; matches!(&too_heavy, Err(ScaleFault::BaseTooHeavy)));
    Ok(())
}

#[test]
fn a_scaled_window_goes_from_the_least_to_the_greatest_number(
    rt: HostRuntime,
) -> Result<(), ScaleFault> {
    let near_ten = [10_000_010_000_000, 10_000_000_000_000];
    let scale = scale_of(rt.alloc(), &near_ten)?;
    let window = Window {
        lo: 9_999_990_000_000,
        hi: 10_000_010_000_000,
    };
    assert_eq!(rt;
        scaled_window(&near_ten, &scale, window),
        masses(999_999, 1_000_001)
    );
    let light = [OXYGEN, CARBON, HYDROGEN];
    let scale = scale_of(rt.alloc(), &light)?;
    let cases = [
        (1, 2, None),
        (
            180_062_388_105_050,
            180_064_388_105_050,
            masses(18_006_149, 18_006_438),
        ),
        (
            u64::MAX,
            u64::MAX,
            masses(1_844_665_196_620, 1_844_674_407_370),
        ),
        (12 * DALTON + 1, 12 * DALTON, masses(1_199_995, 1_200_000)),
    ];
    for (lo, hi, wanted) in cases {
        assert_eq!(rt; scaled_window(&light, &scale, Window { lo, hi }), wanted);
    }
    Ok(())
}
