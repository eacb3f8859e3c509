//! Warnings about calls that several points have in common.

use findings::{Finding, Severity};
use std::alloc::{AllocError, Global};

/// The warnings and remarks about calls to many points. Each is printed once, after the identities
/// of its points.
#[derive(Drop)]
pub struct SharedWarnings {
    alloc: Global,
    /// In the order of the first points.
    warnings: Vec<SharedWarning>,
}

/// A warning or a remark about a call, and its points.
#[derive(Drop)]
struct SharedWarning {
    /// The identities of the points, with commas between them.
    points: String,
    /// The name of the call, the severity and the message.
    text: String,
}

impl SharedWarnings {
    /// Makes a list of no warnings.
    pub fn new(alloc: Global) -> SharedWarnings {
        SharedWarnings {
            alloc,
            warnings: Vec::new(alloc),
        }
    }

    /// Adds the findings, except faults, in a call of this name that `call` is to send to a point.
    /// Those that several points share are printed once.
    pub(crate) fn add(
        &mut self,
        point: &str,
        name: &str,
        findings: &[Finding],
    ) -> Result<(), AllocError> {
        for finding in findings {
            let (severity, message) = (finding.severity, &finding.message);
            if let Severity::Warning | Severity::Remark = severity {
                let text = format!(in self.alloc; "{name}: {severity}: {message}")?;
                self.add_text(point, text)?;
            }
        }
        Ok(())
    }

    /// Adds a warning or a remark on what `call` is to send to a point: to the points that have the
    /// same one, or as a new one.
    fn add_text(&mut self, point: &str, text: String) -> Result<(), AllocError> {
        for warning in self.warnings.iter_mut() {
            if warning.text.as_str() == text.as_str() {
                warning.points.push_str(", ")?;
                return warning.points.push_str(point);
            }
        }
        let points = String::from_str(self.alloc, point)?;
        self.warnings.push(SharedWarning { points, text })?;
        Ok(())
    }

    /// Returns the warnings on what `call` is to send that points share, as lines for standard
    /// error. Each has its points in front.
    pub(crate) fn lines(&self) -> Result<Vec<String>, AllocError> {
        let mut lines = Vec::new(self.alloc);
        for warning in &self.warnings {
            let (points, text) = (&warning.points, &warning.text);
            lines.push(format!(in self.alloc; "{points} {text}")?)?;
        }
        Ok(lines)
    }
}
