//! The law of installs, on a function that does nothing.

ghost use Rattle.std.specs.Prelude.{◌≡◌, ◌↔◌, Option};
ghost use Rattle.ocpp_scalars.specs.declared.refusal.Refusal.{Refusal};
ghost use Rattle.ocpp_scalars.specs.Causes.{IsFirstCause};
ghost use Rattle.profile.specs.declared.row.Row.{Row};
ghost use Rattle.point_book.specs.Book.{BookState};
ghost use Rattle.point_book.specs.Changes.{install_causes, install_refusal};

/// The law of installs. A row is refused by the first cause that holds. If none holds, and only
/// then, nothing but a lack of memory refuses it.
pub fn installs()
    ensures { (book : BookState) (row : Row) (refusal : Option Refusal)
        → (install_refusal book row ≡ refusal) ↔ IsFirstCause (install_causes book row) refusal }
{}
