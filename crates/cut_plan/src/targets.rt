// The pictures that frames of sources are to show (own).
ghost use Rattle.std.specs.Prelude.{◌≡◌, ◌≤◌, true, OnOk, IsErrOf};
ghost use Rattle.vid_desk.specs.Meaning.{Causes, ToldFiles, with_reads};
ghost use Rattle.vid_plane.specs.Frames.{IsFrameOf, sealed_frame};

use thiserror::Error;
use vid_desk::Desk;
use vid_plane::Frame;

/// Why the picture that a frame is to show was not given.
#[derive(Clone, Copy, Debug, PartialEq, Eq, Error)]
pub enum TargetFault {
    /// A read of an input failed.
    #[error("a read failed")]
    ReadFault,
    /// An input is not the one that was judged.
    #[error("an input is not the one that was judged")]
    Changed,
    /// No memory was found.
    #[error("no memory was found")]
    NoMem,
}

/// Gives the picture that each frame of a cut is to show. Sources count from 1, and frames from 0.
pub trait Targets<D: Desk> {
    ghost use Rattle.cut_plan.specs.Targets.{TargetMeaning};

    /// What it gives, and by which inputs. No call changes it.
    ghost shows: { Self → TargetMeaning };

    /// `into` becomes the picture that frame n of source `src` is to show, sealed. After a refusal it is sealed and has its
    /// shape, and may show any picture. `Changed` is never answered over a desk that tells its inputs.
    fn target(
        &mut self,
        desk: &mut D,
        src: u32,
        n: u32,
        into: &mut Frame,
    ) -> Result<(), TargetFault>
        requires covered { (shows self.old).covers src n ≡ true }
        requires shape { IsFrameOf ((shows self.old).shape src n) into.old }
        requires ids { (shows self.old).above ≤ (D.sees desk.old).found }
        requires made { ToldFiles (D.sees desk.old) (λ files. (shows self.old).made files ≡ true) }
        ensures picture { OnOk result (ToldFiles (D.sees desk.old) (λ files. into.new ≡ (shows self.old).picture files src n)) }
        ensures shape { IsFrameOf ((shows self.old).shape src n) into.new }
        ensures sealed { sealed_frame into.new ≡ into.new }
        ensures same { shows self.new ≡ shows self.old }
        ensures kept { with_reads (D.sees desk.old) (D.sees desk.new) }
        ensures causes { Causes (D.sees desk.old) (D.sees desk.new) (IsErrOf result TargetFault.ReadFault) ⊥ }
        ensures never { ToldFiles (D.sees desk.old) (λ files. ¬ IsErrOf result TargetFault.Changed) };
}
