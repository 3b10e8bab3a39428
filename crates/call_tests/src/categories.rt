//! Category option combinations.

use dh_categories::combos::Combos;
use std::alloc::Global;

// The option 4, of a combination of one category with the options 3 and 4.
fn only(alloc: Global) -> Option<u32> {
    let categories = vec![in alloc; vec![in alloc; 3, 4].ok()?].ok()?;
    let options = vec![in alloc; 4].ok()?;
    Combos::build(alloc, &[categories], &[(0, options)])
        .ok()?
        .only(0)
}

#[test]
fn a_single_option_combination_is_found(rt: HostRuntime) {
    assert!(rt; only(rt.alloc()) == Some(0));
}
