//! The paths of the status port.

ghost use Rattle.std.specs.Prelude.{◌≡◌, ◌↔◌, IfSome, Some, codes};
ghost use Rattle.site_status.specs.Asked.{IsOneOfMany};
ghost use Rattle.site_status.specs.declared.asked_path.StatusPath.TheVariants as asked;

/// A path of the status port.
#[derive(Clone, Copy, PartialEq, Eq)]
pub enum StatusPath<'a> {
    /// `/health`
    Health,
    /// `/metrics`
    Metrics,
    /// `/state.json`
    State,
    /// `/`, or `/page/N`, counted from 1.
    Page { number: usize },
    /// `/points/ID/C.svg`
    Picture { point: &'a str, connector: u32 },
}

/// Reads a path, if the status port has it.
pub fn status_path(path: &str) -> Option<StatusPath<'_>>
    ensures health { (result ≡ Some asked.Health) ↔ (path.now ≡ codes "/health") }
    ensures metrics { (result ≡ Some asked.Metrics) ↔ (path.now ≡ codes "/metrics") }
    ensures state { (result ≡ Some asked.State) ↔ (path.now ≡ codes "/state.json") }
    ensures opening { path.now ≡ codes "/" → result ≡ Some (asked.Page 1) }
{
    match path {
        "/health" => Some(StatusPath::Health),
        "/metrics" => Some(StatusPath::Metrics),
        "/state.json" => Some(StatusPath::State),
        "/" => Some(StatusPath::Page { number: 1 }),
        _ => long_path(path),
    }
}

/// Reads a path of the status port with a name or a number in it, `/page/N` or `/points/ID/C.svg`,
/// if it is one.
fn long_path(path: &str) -> Option<StatusPath<'_>>
    ensures { IfSome result IsOneOfMany }
{
    if let Some(number) = path.strip_prefix("/page/") {
        let number = number.parse::<usize>().ok()?;
        return Some(StatusPath::Page { number });
    }
    let (point, file) = path.strip_prefix("/points/")?.split_once('/')?;
    let connector = file.strip_suffix(".svg")?.parse::<u32>().ok()?;
    Some(StatusPath::Picture { point, connector })
}
