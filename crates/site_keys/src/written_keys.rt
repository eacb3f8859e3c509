//! The headers that a new key admits: a law of definitions alone.

ghost use Rattle.std.specs.Prelude.{ℕ, ◌≡◌, List, [], ◌∷◌, Some, Option};
ghost use Rattle.site_keys.specs.declared.role.Role.{Role};
ghost use Rattle.site_keys.specs.Admission.{IsAdmitted};
ghost use Rattle.site_keys.specs.Credentials.{IsBasic};
ghost use Rattle.site_keys.specs.KeyFile.{AreKeysOf};
ghost use Rattle.site_keys.specs.NewKey.{CanBeSent, CanBeWritten, OpensAlone, SendsKey, basic_header, key_line, new_key};

/// States that a written line is a file of that key alone. It admits a client that sends its name
/// and the key, as hex digits or as bytes, and no client of another name or role. Each name and
/// each password can be sent.
pub fn written_keys_open()
    ensures read { (role : Role) (name salt key : List ℕ) → CanBeWritten name salt key
        → AreKeysOf (key_line (new_key role name salt key)) (new_key role name salt key ∷ []) }
    ensures opens { (role : Role) (name salt key header : List ℕ) → CanBeWritten name salt key
        → SendsKey header name key
        → IsAdmitted (new_key role name salt key ∷ []) role name (Some header) name }
    ensures alone { (role : Role) (name salt key : List ℕ) → OpensAlone role name salt key }
    ensures headers { (name password : List ℕ) → CanBeSent name password
        → IsBasic (basic_header name password) name password }
{}
