// What commands do to the files of one group.
ghost use Rattle.std.specs.Prelude.{◌≡◌, ◌⊎◌, IfErr, IfOk};
ghost use Rattle.session.specs.group_engine.Commits.{StatusCause};
ghost use Rattle.session.specs.group_engine.Mounts.{MountedGroup};
ghost use Rattle.session.specs.group_engine.Own.{KeepsGroup};
ghost use Rattle.session.specs.file_extents.Filling.{PutCause};
ghost use Rattle.session.specs.group_contents.Creating.{BeginCause, NamesFile};
ghost use Rattle.session.specs.group_contents.Works.{WorkDoes};

use bay::Bay;
use refusal_lines::Refusal;
use report_laws::NewFile;
use session::{
    Contents, FileWork, Filling, GroupWork, Mounted, begin_new, create, finish_new, give_up,
    put_next, work_on_file,
};
use std::alloc::Global;

/// A file is worked on, at a time in seconds.
#[derive(Clone, Copy)]
pub struct OnFile<'a> {
    pub work: &'a FileWork,
    pub now: u64,
}

impl GroupWork for OnFile<'_> {
    type Given = ();

    ghost does = { λ work old result new s t. KeepsGroup old new s t × WorkDoes old work.work.now result new s t };

    #[tactic(auto, using(session::proofs::Keeping::lets_go))]
    fn run<B: Bay>(self, m: &mut Mounted, alloc: Global, bay: &mut B) -> Result<(), Refusal> {
        work_on_file(m, alloc, bay, self.work, self.now)
    }
}

/// A file of zeros is made. Gives its number.
#[derive(Clone, Copy)]
pub struct Create<'a> {
    pub new: &'a NewFile,
}

impl GroupWork for Create<'_> {
    type Given = u32;

    ghost does = { λ work old result new s t. IfOk result (λ file. (before : MountedGroup) × NamesFile before work.new.now file new) };

    #[tactic(auto, using(session::proofs::Keeping::lets_go))]
    fn run<B: Bay>(self, m: &mut Mounted, alloc: Global, bay: &mut B) -> Result<u32, Refusal> {
        create(m, alloc, bay, self.new)
    }
}

/// A file is begun that will be filled with bytes.
#[derive(Clone, Copy)]
pub struct Begin<'a> {
    pub new: &'a NewFile,
}

impl GroupWork for Begin<'_> {
    type Given = Filling;

    ghost does = { λ work old result new s t. IfOk result (λ filling. filling.end ≡ work.new.now.size) × IfErr result (BeginCause old work.new.now new s t) };

    #[tactic(auto, using(session::proofs::Keeping::lets_go))]
    fn run<B: Bay>(self, m: &mut Mounted, alloc: Global, bay: &mut B) -> Result<Filling, Refusal> {
        begin_new(m, alloc, bay, self.new, Contents::Bytes)
    }
}

/// The next bytes are put into a file that was begun.
#[derive(Drop)]
pub struct Put<'a> {
    pub filling: Filling,
    pub bytes: &'a [u8],
}

impl GroupWork for Put<'_> {
    type Given = Filling;

    ghost does = { λ work old result new s t. IfOk result (λ filling. filling.end ≡ work.filling.end) × IfErr result (PutCause old work.filling.failed new s t) };

    #[tactic(auto, using(session::proofs::Keeping::lets_go))]
    fn run<B: Bay>(self, m: &mut Mounted, alloc: Global, bay: &mut B) -> Result<Filling, Refusal> {
        let Put { mut filling, bytes } = self;
        match put_next(m, alloc, bay, &mut filling, bytes) {
            Ok(()) => Ok(filling),
            Err(refusal) => {
                drop(filling);
                Err(refusal)
            }
        }
    }
}

/// A file that was begun gets its name. Gives its number.
#[derive(Clone, Copy)]
pub struct Finish<'a> {
    pub filling: &'a Filling,
    pub new: &'a NewFile,
}

impl GroupWork for Finish<'_> {
    type Given = u32;

    ghost does = { λ work old result new s t. IfOk result (λ file. NamesFile old work.new.now file new) × IfErr result (StatusCause old new s t) };

    #[tactic(auto, using(session::proofs::Keeping::lets_go))]
    fn run<B: Bay>(self, m: &mut Mounted, alloc: Global, bay: &mut B) -> Result<u32, Refusal> {
        finish_new(m, alloc, bay, self.filling, self.new)
    }
}

/// A file that was begun is given back, for this refusal. It gives nothing: the refusal is that, or
/// the one by which it couldn't be given back.
#[derive(Drop)]
pub struct GiveUp {
    pub refusal: Refusal,
}

impl GroupWork for GiveUp {
    type Given = ();

    ghost does = { λ work old result new s t. IfOk result (λ given. ⊥) × IfErr result (λ refusal. (refusal ≡ work.refusal) ⊎ StatusCause old new s t refusal) };

    #[tactic(auto, using(session::proofs::Keeping::lets_go))]
    fn run<B: Bay>(self, m: &mut Mounted, alloc: Global, bay: &mut B) -> Result<(), Refusal> {
        Err(give_up(m, alloc, bay, self.refusal))
    }
}
