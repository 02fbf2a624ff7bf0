// One edit of a group of the session.
ghost use Rattle.std.specs.Prelude.{◌≡◌, length};
ghost use Rattle.session.specs.Editing.{EditDoes, EditsGroup};
ghost use Rattle.session.specs.Entries.{AreAlike};
ghost use Rattle.session.specs.Naming.{AreNamesApart, CarriesOn, IsMountedName};
ghost use Rattle.session.specs.Sessions.{AreReady};

use crate::naming::GroupWork;
use crate::session::Session;
use asm_base::Name;
use bay::Bay;
use group_contents::Mounted;
use refusal_lines::Refusal;
use session_claims::{GroupEdit, edit_group};
use std::alloc::Global;

/// A group's names or settings are edited.
#[derive(Clone, Copy)]
struct MakeEdit<'a> {
    edit: &'a GroupEdit,
}

impl GroupWork for MakeEdit<'_> {
    type Given = ();

    ghost does = { λ work. EditDoes work.edit.now };

    #[tactic(auto, using(crate::proofs::Keeping::lets_go))]
    fn run<B: Bay>(self, m: &mut Mounted, alloc: Global, bay: &mut B) -> Result<(), Refusal> {
        edit_group(m, alloc, bay, self.edit)
    }
}

impl Session {
    /// No two groups have one name, and each entry has its group and says whether it is mounted.
    pub(crate) fn shows_names(&self)
        ensures apart { AreNamesApart self.now.entries }
        ensures paired { length self.now.groups ≡ length self.now.entries }
        ensures alike { AreAlike self.now.entries self.now.groups }
    {
        let _count = self.groups.len();
    }

    /// Edits the mounted group of a name. NoGroup where it isn't in the session, and Dismounted
    /// where it is so; then the refusals of the edit, and Dismounted by its commit.
    pub fn edit<B: Bay>(
        &mut self,
        alloc: Global,
        bay: &mut B,
        name: &Name,
        edit: &GroupEdit,
    ) -> Result<(), Refusal>
        requires ready { AreReady self.old.groups (B.state bay.old) }
        ensures edits { IsMountedName self.old name.now
            → EditsGroup name.now edit.now result self.old self.new (B.state bay.old)
            (B.state bay.new) }
        ensures carries { CarriesOn self.old self.new (B.state bay.old) (B.state bay.new) }
        ensures apart { AreNamesApart self.old.entries }
        ensures paired { length self.old.groups ≡ length self.old.entries }
    {
        self.shows_names();
        self.work(alloc, bay, name, MakeEdit { edit })
    }
}
