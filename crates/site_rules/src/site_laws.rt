//! The laws of site files and of admissions, as contracts of functions that do nothing.

ghost use Rattle.std.specs.Prelude.{◌≡◌, ◌↔◌, ℕ, List, Option, Ok, Err};
ghost use Rattle.ocpp_scalars.specs.declared.refusal.Refusal.{Refusal};
ghost use Rattle.ocpp_scalars.specs.Causes.{IsFirstCause};
ghost use Rattle.profile.specs.declared.charging_profile.Profile.{Profile};
ghost use Rattle.site_rules.specs.declared.fault.SiteFault.{SiteFault};
ghost use Rattle.site_rules.specs.Site.{SiteState};
ghost use Rattle.site_rules.specs.SiteFile.{IsSiteFile};
ghost use Rattle.site_rules.specs.SiteFaults.{IsSiteFault};
ghost use Rattle.site_rules.specs.Admission.{admission_causes, admission_refusal};
ghost use Rattle.site_rules.specs.ByCases.SiteReading.{site_of};

/// States the law of all site files. A site is read exactly if the bytes are a file that describes
/// it. A fault is found exactly if it is their first.
pub fn site_files()
    ensures site { (bytes : List ℕ) (site : SiteState)
        → (site_of bytes ≡ Ok site) ↔ IsSiteFile bytes site }
    ensures fault { (bytes : List ℕ) (fault : SiteFault)
        → (site_of bytes ≡ Err fault) ↔ IsSiteFault bytes fault }
{}

/// States the law of admissions. A profile is refused exactly if the cause of the refusal holds and
/// no earlier one does. It is admitted exactly if no cause holds.
pub fn admissions()
    ensures { (site : SiteState) (id : List ℕ) (connector : ℕ) (profile : Profile)
        (refusal : Option Refusal)
        → (admission_refusal site id connector profile ≡ refusal)
        ↔ IsFirstCause (admission_causes site id connector profile) refusal }
{}
