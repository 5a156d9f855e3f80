//! The greatest common divisor of two numbers.
ghost use Rattle.std.specs.Prelude.{◌≤◌};
ghost use Rattle.residue_table.specs.Strides.{IsStride};

/// The greatest common divisor of a modulus and a step, by Euclid's algorithm.
pub(crate) fn common_divisor(modulus: usize, step: usize) -> usize
    requires { 1 ≤ modulus }
    ensures { IsStride modulus step result }
{
    let mut divisor = modulus;
    let mut rest = step;
    while rest != 0 {
        let next = divisor % rest;
        divisor = rest;
        rest = next;
    }
    divisor
}
