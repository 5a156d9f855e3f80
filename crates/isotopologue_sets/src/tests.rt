//! The one allocating call, on its happy path.

use super::*;
use multinomial_bounds::MAX_ATOMS;
use std::test::Fail;

#[test]
fn an_element_keeps_its_weights_and_atoms(rt: HostRuntime) -> Result<(), Fail> {
    let carbon = ElementAtoms::of(rt.alloc(), &[989_300_000, 10_700_000], 6)?;
    assert_eq!(rt; carbon.weights(), [989_300_000, 10_700_000].as_slice());
    assert_eq!(rt; carbon.atoms(), 6);
    let greatest = ElementAtoms::of(rt.alloc(), &[1_000_000_000_000; 16], MAX_ATOMS)?;
    assert_eq!(rt; greatest.weights(), [1_000_000_000_000; 16].as_slice());
    assert_eq!(rt; greatest.atoms(), MAX_ATOMS);
    Ok(())
}
