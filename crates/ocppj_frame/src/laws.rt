//! Laws of all texts and trees, on functions that do nothing.
ghost use Rattle.std.specs.Prelude.{◌≡◌, ℕ, ◌↔◌, List, Result};
ghost use Rattle.ocppj_frame.specs.Mark.{IsMarked};
ghost use Rattle.ocppj_frame.specs.Message.{IsMessage, IsMessageOfText, Message};
ghost use Rattle.ocppj_frame.specs.Tree.{Tree};
ghost use Rattle.ocppj_frame.specs.ByCases.Mark.{marked_text};
ghost use Rattle.ocppj_frame.specs.ByCases.Message.{message_of_text, message_of_tree};
ghost use Rattle.ocppj_frame.specs.declared.fault.FrameFault.{FrameFault};

/// States a law of all texts: the marked text is the one that the rules of marking give, and no
/// other.
pub fn marked_texts()
    ensures { (text : List ℕ) (out : List ℕ) → (marked_text text ≡ out) ↔ IsMarked text out }
{}

/// States laws of all trees and texts. The message or fault of a tree is that of its row in
/// OCPP-J's table, and no other. That of a text is its tree's, if it isn't too long and has a tree.
pub fn frame_messages()
    ensures trees { (tree : Tree) (result : Result Message FrameFault)
        → (message_of_tree tree ≡ result) ↔ IsMessage tree result }
    ensures texts { (text : List ℕ) (result : Result Message FrameFault)
        → (message_of_text text ≡ result) ↔ IsMessageOfText text result }
{}
