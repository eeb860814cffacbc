//! Searches over choices.

ghost use Rattle.std.specs.Prelude.{◌≡◌, ◌<◌, ◌≤◌};
ghost use Rattle.hs_tests_engine.specs.Varied.{IsNew, IsVaried};

use hs_search::{Choice, Numbers, exists, least, next_after};

/// Different numbers below a bound, the last of them given.
#[derive(Drop)]
struct Varied {
    count: usize,
    below: u32,
    last: Option<u32>,
    ghost few: { count ≤ 28 },
}

impl Choice for Varied {
    ghost size = { λ v. v.count };

    ghost Fits = { λ v front x. IsNew v.below front x };

    ghost Good = { λ v xs. IsVaried v.below v.last xs };

    fn size(&self) -> usize {
        self.count
    }

    fn next(&self, front: &[u32], from: u64) -> Option<u32> {
        let below = self.below;
        let Ok(start) = u32::try_from(from) else {
            return None;
        };
        for x in start..below {
            if !front.contains(&x) {
                return Some(x);
            }
        }
        None
    }

    fn is_good(&self, all: &[u32]) -> bool {
        all.last().copied() == self.last
    }
}

fn is(found: &Option<Numbers>, want: &[u32]) -> bool {
    found
        .as_ref()
        .is_some_and(|numbers| numbers.as_slice() == want)
}

#[test]
fn goes_through_all(rt: HostRuntime) {
    let varied = Varied {
        count: 3,
        below: 4,
        last: Some(0),
    };
    let mut found = least(&varied);
    for want in [
        [1, 2, 0],
        [1, 3, 0],
        [2, 1, 0],
        [2, 3, 0],
        [3, 1, 0],
        [3, 2, 0],
    ] {
        assert!(rt; is(&found, want.as_slice()));
        found = next_after(&varied, want.as_slice());
    }
    assert!(rt; found.is_none());
    assert!(rt; is(&next_after(&varied, &[1, 2, 3]), &[1, 3, 0]));
    assert!(rt; is(&next_after(&varied, &[1]), &[1, 2, 0]));
}

#[test]
fn finds_none(rt: HostRuntime) {
    let varied = Varied {
        count: 5,
        below: 4,
        last: Some(0),
    };
    assert!(rt; !exists(&varied));
    assert!(rt; least(&varied).is_none());
}

#[test]
fn chooses_nothing(rt: HostRuntime) {
    let varied = Varied {
        count: 0,
        below: 4,
        last: None,
    };
    assert!(rt; exists(&varied));
    assert!(rt; is(&least(&varied), &[]));
    assert!(rt; next_after(&varied, &[]).is_none());
}
