//! Each Unix call refines its rule. Each law is the contract of a function that does nothing.
ghost use Rattle.histar_sim.specs.Laws.{AppendRefines, CreateRefines, ExitRefines, KillRefines, ListRefines, LoginRefines};
ghost use Rattle.histar_sim.specs.Laws.{MkdirRefines, ReadRefines, RenameRefines, RmdirRefines, RmtreeRefines, SpawnRefines};
ghost use Rattle.histar_sim.specs.Laws.{StatRefines, StatusRefines, UnlinkRefines, WhoamiRefines, WrapRefines, WriteRefines};

use histar_heap::Heap;

/// Says that the program of `read` refines its rule.
pub fn read_refines<H: Heap>()
    ensures { ReadRefines H.Refused }
{}

/// Says that the program of `write` refines its rule.
pub fn write_refines<H: Heap>()
    ensures { WriteRefines H.Refused }
{}

/// Says that the program of `append` refines its rule.
pub fn append_refines<H: Heap>()
    ensures { AppendRefines H.Refused }
{}

/// Says that the program of `create` refines its rule.
pub fn create_refines<H: Heap>()
    ensures { CreateRefines H.Refused }
{}

/// Says that the program of `mkdir` refines its rule.
pub fn mkdir_refines<H: Heap>()
    ensures { MkdirRefines H.Refused }
{}

/// Says that the program of `list` refines its rule.
pub fn list_refines<H: Heap>()
    ensures { ListRefines H.Refused }
{}

/// Says that the program of `stat` refines its rule.
pub fn stat_refines<H: Heap>()
    ensures { StatRefines H.Refused }
{}

/// Says that the program of `unlink` refines its rule.
pub fn unlink_refines<H: Heap>()
    ensures { UnlinkRefines H.Refused }
{}

/// Says that the program of `rmdir` refines its rule.
pub fn rmdir_refines<H: Heap>()
    ensures { RmdirRefines H.Refused }
{}

/// Says that the program of `rmtree` refines its rule.
pub fn rmtree_refines<H: Heap>()
    ensures { RmtreeRefines H.Refused }
{}

/// Says that the program of `rename` refines its rule.
pub fn rename_refines<H: Heap>()
    ensures { RenameRefines H.Refused }
{}

/// Says that the program of `spawn` refines its rule.
pub fn spawn_refines<H: Heap>()
    ensures { SpawnRefines H.Refused }
{}

/// Says that the program of `exit` refines its rule.
pub fn exit_refines<H: Heap>()
    ensures { ExitRefines H.Refused }
{}

/// Says that the program of `status` refines its rule.
pub fn status_refines<H: Heap>()
    ensures { StatusRefines H.Refused }
{}

/// Says that the program of `kill` refines its rule.
pub fn kill_refines<H: Heap>()
    ensures { KillRefines H.Refused }
{}

/// Says that the program of `whoami` refines its rule.
pub fn whoami_refines<H: Heap>()
    ensures { WhoamiRefines H.Refused }
{}

/// Says that the program of `login` refines its rule.
pub fn login_refines<H: Heap>()
    ensures { LoginRefines H.Refused }
{}

/// Says that the program of `wrap` refines its rule.
pub fn wrap_refines<H: Heap>()
    ensures { WrapRefines H.Refused }
{}
