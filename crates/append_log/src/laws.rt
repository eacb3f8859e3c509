//! Laws of crashes: acknowledged bytes stay, and whole lines are recovered.

ghost use Rattle.std.specs.Prelude.{ℕ, ◌≡◌, ◌++◌, List, false, take};
ghost use Rattle.std.specs.List.{AllByRecursion};
ghost use Rattle.append_log.specs.Contents.{Contents, IsFirstPart, MayLeave};
ghost use Rattle.append_log.specs.History.{AtEachMoment, History};
ghost use Rattle.append_log.specs.Lines.{HasNoLineFeed, text_of, whole_lines};

/// Each crash from then on leaves the acknowledged bytes: during a call that leaves the bytes
/// acknowledged before it at each moment, and during such calls one after another.
pub fn acknowledged_for_good()
    ensures call { (bytes : List ℕ) (contents : Contents) (old new : History)
        → IsFirstPart bytes contents.synced → AtEachMoment (MayLeave contents) old new
        → AtEachMoment (IsFirstPart bytes) old new }
    ensures calls { (bytes : List ℕ) (first second third : History)
        → AtEachMoment (IsFirstPart bytes) first second
        → AtEachMoment (IsFirstPart bytes) second third
        → AtEachMoment (IsFirstPart bytes) first third }
{}

/// A crash leaves all acknowledged lines. As long as no call failed, they are followed by the first
/// of the pending lines, and by no others.
pub fn lines_are_recovered()
    ensures acknowledged { (contents : Contents) (lines : List (List ℕ)) (left : List ℕ)
        → contents.synced ≡ text_of lines → MayLeave contents left
        → IsFirstPart (text_of lines) (whole_lines left) }
    ensures pending { (contents : Contents) (lines pending : List (List ℕ)) (left : List ℕ)
        → contents.synced ≡ text_of lines → contents.appended ≡ text_of pending
        → contents.has_failed ≡ false → AllByRecursion HasNoLineFeed pending
        → MayLeave contents left
        → (count : ℕ) × (whole_lines left ≡ text_of lines ++ text_of (take count pending)) }
{}
