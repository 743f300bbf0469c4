//! Names of processes as keys.
ghost use Rattle.std.specs.Prelude.{◌≡◌};
ghost use Rattle.histar_rights.specs.Running.{process_cmp};

use histar_flat::ProcName;
use std::cmp::Ordering;
use std::marker::Model;

/// The name of a process as a key. Keys are ordered as lists of numbers from process 0 on.
#[derive(Drop)]
pub(crate) struct Member {
    pub(crate) name: ProcName,
}

impl Model for Member {
    ghost use Rattle.std.specs.Prelude.{ℕ, List};

    ghost Value = { List ℕ };

    ghost view = { λ m. m.name };
}

impl PartialEq for Member {
    ghost use Rattle.std.specs.Ordering.{eq_by_cmp};
    ghost use Rattle.std.specs.Cmp.{eq_by_cmp_equiv, partial_equiv_from_equiv};
    ghost use Rattle.histar_rights.specs.Running.{process_cmp};
    ghost use Rattle.histar_diff.proofs.Steps.{process_cmp_total};

    ghost eq = { eq_by_cmp process_cmp };

    ghost laws = { partial_equiv_from_equiv (eq_by_cmp_equiv process_cmp_total) };

    fn eq(&self, other: &Member) -> bool {
        self.cmp(other) == Ordering::Equal
    }
}

impl Eq for Member {
    ghost use Rattle.std.specs.Cmp.{eq_by_cmp_equiv};
    ghost use Rattle.histar_diff.proofs.Steps.{process_cmp_total};

    ghost laws = { eq_by_cmp_equiv process_cmp_total };
}

impl PartialOrd for Member {
    ghost use Rattle.std.specs.Prelude.{Some};
    ghost use Rattle.std.specs.Cmp.{partial_order_from_total};
    ghost use Rattle.histar_rights.specs.Running.{process_cmp};
    ghost use Rattle.histar_diff.proofs.Steps.{process_cmp_total};

    ghost partial_cmp = { λ a b. Some (process_cmp a b) };

    ghost laws = { partial_order_from_total process_cmp_total };

    fn partial_cmp(&self, other: &Member) -> Option<Ordering> {
        Some(self.cmp(other))
    }
}

impl Ord for Member {
    ghost use Rattle.std.proofs.Common.{refl};
    ghost use Rattle.histar_rights.specs.Running.{process_cmp};
    ghost use Rattle.histar_diff.proofs.Steps.{process_cmp_total};

    ghost cmp = { process_cmp };

    ghost total = { process_cmp_total };

    ghost matches_partial_cmp = { λ a b. refl };

    ghost matches_eq = { λ a b. refl };

    fn cmp(&self, other: &Member) -> Ordering {
        compare(&self.name, &other.name)
    }
}

/// Compares the names of processes as lists of numbers, from process 0 on.
fn compare(a: &ProcName, b: &ProcName) -> Ordering
    ensures { result ≡ process_cmp a.now b.now }
{
    a.numbers().iter().rev().cmp(b.numbers().iter().rev())
}
