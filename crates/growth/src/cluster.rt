// A cluster's record, by number: its state, its moat, its parts, and whether it is maximal.
ghost use Rattle.std.specs.Prelude.{◌≡◌, ◌+◌, ◌^◌, ◌<◌};
ghost use Rattle.growth.specs.Records.{vacant, lone_record, inactivated, widened, enclosed, joined_record, is_growing};

#[derive(Clone, Copy, PartialEq, Eq, Debug)]
pub enum Phase {
    Active,
    Inactive,
}

// `parts` is none for a node alone, else the numbers of two clusters: a tree of boxes would want memory.
#[derive(Clone, Copy)]
pub struct Cluster {
    pub(crate) phase: Phase,
    pub(crate) moat: u64,
    pub(crate) parts: Option<(usize, usize)>,
    pub(crate) maximal: bool,
}

impl Cluster {
    // Stands where no cluster is formed yet.
    pub(crate) fn vacant() -> Cluster
        ensures { result ≡ vacant }
    {
        Cluster {
            phase: Phase::Active,
            moat: 0,
            parts: None,
            maximal: false,
        }
    }

    // A node alone, active, with moat 0.
    pub(crate) fn lone() -> Cluster
        ensures { result ≡ lone_record }
    {
        Cluster {
            phase: Phase::Active,
            moat: 0,
            parts: None,
            maximal: true,
        }
    }

    // The union of two clusters: active, with moat 0.
    pub(crate) fn join(first: usize, second: usize) -> Cluster
        ensures { result ≡ joined_record first second }
    {
        Cluster {
            phase: Phase::Active,
            moat: 0,
            parts: Some((first, second)),
            maximal: true,
        }
    }

    pub(crate) fn close(&mut self)
        ensures { self.new ≡ inactivated self.old }
    {
        self.phase = Phase::Inactive;
    }

    // It is inside another from now on.
    pub(crate) fn enclose(&mut self)
        ensures { self.new ≡ enclosed self.old }
    {
        self.maximal = false;
    }

    pub(crate) fn is_growing(&self) -> bool
        ensures { result ≡ is_growing self.now }
    {
        self.phase == Phase::Active && self.maximal
    }

    // Its moat grows where it is active and maximal.
    pub(crate) fn grow(&mut self, by: u64)
        requires { self.old.moat + by < 2 ^ 64 }
        ensures { self.new ≡ widened by self.old }
    {
        if self.is_growing() {
            self.moat += by;
        }
    }
}
