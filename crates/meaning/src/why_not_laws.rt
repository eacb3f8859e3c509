//! The law of the reasons why a profile doesn't prevail, on a function that does nothing.

ghost use Rattle.std.specs.Prelude.{◌≡◌, ◌↔◌, ℕ, None};
ghost use Rattle.profile.specs.declared.row.Row.{Row};
ghost use Rattle.meaning.specs.View.{PointState};
ghost use Rattle.meaning.specs.Cause.{IsRowOf};
ghost use Rattle.meaning.specs.WhyNot.{why_not, Prevails, HaveOwnKeys};

/// The law that there is no reason why a row of a point doesn't prevail exactly if it prevails,
/// provided that no two rows have the same connector, purpose and stack level.
pub fn why_nots()
    ensures { (state : PointState) (connector asked instant : ℕ) (row : Row)
        → HaveOwnKeys state.rows → IsRowOf state.rows row
        → (why_not state connector asked instant row ≡ None)
        ↔ Prevails state connector asked instant row }
{}
