// What a step answers.
ghost use Rattle.std.specs.Prelude.{◌≡◌};

// A maximal cluster has become inactive, or an edge is chosen and has merged two.
#[derive(Clone, Copy, PartialEq, Eq, Debug)]
pub enum Event {
    Deactivated { cluster: usize },
    Merged { edge: usize },
}

// The event under a number of the queue: below 511 a cluster's, from there on an edge's.
impl From<usize> for Event {
    ghost use Rattle.growth.specs.Numbers.{event_of};

    ghost from_gives = { λ number event. event ≡ event_of number };

    fn from(number: usize) -> Event {
        if number < 511 {
            Event::Deactivated { cluster: number }
        } else {
            Event::Merged { edge: number - 511 }
        }
    }
}
