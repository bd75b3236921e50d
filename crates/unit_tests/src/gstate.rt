//! Measures along the dual vector, which instructions take in another way.
use fx_fixed::{F26, Place};
use fx_gstate::GState;

/// A place in 26.6.
fn place(x: i32, y: i32) -> Place {
    Place {
        x: F26(x),
        y: F26(y),
    }
}

/// Whether a distance is measured along the x axis by both vectors, and along the y axis by the dual one once it is set to that.
fn measures(state: &mut GState) -> bool {
    let by_both = (
        state.project(F26(3), F26(4)),
        state.dual_project(F26(3), F26(4)),
    );
    state.set_dual_to_line(place(0, 5), place(0, 0), false);
    by_both == (F26(3), F26(3)) && state.dual_project(F26(3), F26(4)) == F26(4)
}

#[test]
fn distances_along_the_dual_vector(rt: HostRuntime) {
    let mut state = GState::new();
    assert!(rt; measures(&mut state));
}
