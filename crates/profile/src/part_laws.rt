//! The law of a profile's received fields, on a function that does nothing.

ghost use Rattle.std.specs.Prelude.{◌≡◌, ◌↔◌, Some, None, Ok, Err};
ghost use Rattle.ocpp_scalars.specs.declared.refusal.Refusal.{Refusal};
ghost use Rattle.ocpp_scalars.specs.Causes.{IsFirstCause};
ghost use Rattle.profile.specs.declared.parts.ProfileParts.{ProfileParts};
ghost use Rattle.profile.specs.declared.charging_profile.Profile.{Profile};
ghost use Rattle.profile.specs.Parts.{IsProfileOf, part_causes, profile_of_parts};

/// The law of a profile's received fields. They are refused exactly if the cause of the refusal
/// holds and no earlier cause does. They make a profile exactly if no cause holds, and it is the
/// profile with these fields.
pub fn profile_parts()
    ensures refused { (parts : ProfileParts) (refusal : Refusal)
        → (profile_of_parts parts ≡ Err refusal) ↔ IsFirstCause (part_causes parts) (Some refusal) }
    ensures made { (parts : ProfileParts) (profile : Profile)
        → (profile_of_parts parts ≡ Ok profile)
        ↔ (IsFirstCause (part_causes parts) None × IsProfileOf parts profile) }
{}
