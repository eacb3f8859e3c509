//! Laws about definitions only. Each function has an empty body.
ghost use Rattle.std.specs.Prelude.{◌≡◌, ℕ, ℤ, ◌≤◌, ◌<◌, ◌^◌, ◌↔◌, List, IsTrue, Result, Ok};
ghost use Rattle.ocpp_scalars.specs.declared.instant_text.InstantFault.{InstantFault};
ghost use Rattle.ocpp_scalars.specs.declared.number.NumberFault.{NumberFault};
ghost use Rattle.ocpp_scalars.specs.declared.id_tag.TheConstants.{MAX_ID_TAG_CHARACTERS};
ghost use Rattle.ocpp_scalars.specs.Limits.{last_second, max_id_tag_characters, max_tenths};
ghost use Rattle.ocpp_scalars.specs.InstantText.{IsInstantReading, SpellsOnlyInstant};
ghost use Rattle.ocpp_scalars.specs.Number.{IsTenthsReading, IsWholeReading, SpellsOnlyTenths};
ghost use Rattle.ocpp_scalars.specs.NumberText.{IsNumber};
ghost use Rattle.ocpp_scalars.specs.Writing.{instant_text, tenths_text};
ghost use Rattle.ocpp_scalars.specs.ByCases.InstantText.{instant_of};
ghost use Rattle.ocpp_scalars.specs.ByCases.NumberText.{is_number_text};
ghost use Rattle.ocpp_scalars.specs.ByCases.Number.{tenths_of, whole_of};

/// The readers of numbers return exactly the readings that RFC 8259's grammar gives. Printed tenths
/// spell their own value and no other, and are read back as it. (`decimal` prints 64 digits.)
pub fn number_texts()
    ensures form { (text : List ℕ) → IsTrue (is_number_text text) ↔ IsNumber text }
    ensures tenths { (text : List ℕ) (reading : Result ℕ NumberFault) →
        (tenths_of text ≡ reading) ↔ IsTenthsReading text reading }
    ensures whole { (text : List ℕ) (reading : Result ℤ NumberFault) →
        (whole_of text ≡ reading) ↔ IsWholeReading text reading }
    ensures printed { (tenths : ℕ) → tenths < 10 ^ 64 →
        SpellsOnlyTenths (tenths_text tenths) tenths }
    ensures again { (tenths : ℕ) → tenths ≤ max_tenths →
        tenths_of (tenths_text tenths) ≡ Ok tenths }
{}

/// The reader of instants returns exactly the readings that the grammar of dates and times gives. A
/// printed instant spells itself and no other, and is read back as itself.
pub fn instant_texts()
    ensures reading { (text : List ℕ) (reading : Result ℕ InstantFault) →
        (instant_of text ≡ reading) ↔ IsInstantReading text reading }
    ensures printed { (instant : ℕ) → instant ≤ last_second →
        SpellsOnlyInstant (instant_text instant) instant }
    ensures again { (instant : ℕ) → instant ≤ last_second →
        instant_of (instant_text instant) ≡ Ok instant }
{}

/// The bound of an `IdTag` is OCPP's.
pub fn id_tags()
    ensures { MAX_ID_TAG_CHARACTERS ≡ max_id_tag_characters }
{}
