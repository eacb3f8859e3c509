//! The answers of the status port.

use crate::own_host::is_for_this_machine;
use crate::status_port::StatusPort;
use crate::watched_site::WatchedSite;
use bytes::Bytes;
use http::{HeaderName, HeaderValue, Method, Request, StatusCode};
use http_server::{Response, Service};
use site_status::{Health, StatusAnswer, health_answer, not_found, status_path};
use std::alloc::{AllocError, Global};
use std::sync::Wait;

/// The HTTP service of a status port.
#[derive(Drop)]
pub struct StatusService<'a, R, S> {
    pub port: &'a StatusPort<R, S>,
}

impl<R: Wait + Drop, S: WatchedSite + Drop> Service for StatusService<'_, R, S> {
    ghost answers = { λ _ _ _ _. Unit {0} };

    fn call(
        &mut self,
        request: &Request<Bytes>,
        response: &mut Response,
    ) -> Result<(), AllocError> {
        response.add_header(
            HeaderName::from_static("connection"),
            HeaderValue::from_static("close"),
        )?;
        response.add_header(
            HeaderName::from_static("cache-control"),
            HeaderValue::from_static("no-store"),
        )?;
        response.add_header(
            HeaderName::from_static("x-content-type-options"),
            HeaderValue::from_static("nosniff"),
        )?;
        if !self.is_for_us(request) {
            response.status = StatusCode::MISDIRECTED_REQUEST;
            return Ok(());
        }
        let method = request.method();
        if *method != Method::GET && *method != Method::HEAD {
            response.status = StatusCode::METHOD_NOT_ALLOWED;
            return response.add_header(
                HeaderName::from_static("allow"),
                HeaderValue::from_static("GET, HEAD"),
            );
        }
        let answer = self.answer(request)?;
        fill(self.port.alloc, response, answer)
    }
}

impl<R: Wait + Drop, S: WatchedSite + Drop> StatusService<'_, R, S> {
    /// Returns whether an HTTP request to the server's status port is for this machine, or true if
    /// the port is open to others.
    fn is_for_us(&self, request: &Request<Bytes>) -> bool {
        match &self.port.address {
            Some(address) => is_for_this_machine(request.headers(), address.as_str()),
            None => true,
        }
    }

    /// Returns the answer of the server's status port to an HTTP request: that of the site, that
    /// the site is being restored, or 404.
    fn answer(&self, request: &Request<Bytes>) -> Result<StatusAnswer, AllocError> {
        let alloc = self.port.alloc;
        let Some(path) = status_path(request.uri().path()) else {
            return not_found(alloc);
        };
        match self.port.site()? {
            Some(site) => site.answer(path),
            None => health_answer(alloc, Health::Restoring),
        }
    }
}

/// Fills in the HTTP response of the server's status port with this answer.
fn fill(alloc: Global, response: &mut Response, answer: StatusAnswer) -> Result<(), AllocError> {
    let StatusAnswer { status, kind, body } = answer;
    if let Ok(status) = StatusCode::from_u16(status) {
        response.status = status;
    }
    // The name of each kind is a valid header value, so only lack of memory can fail here.
    let Ok(value) = HeaderValue::from_str(alloc, kind.name()) else {
        return Err(AllocError);
    };
    response.add_header(HeaderName::from_static("content-type"), value)?;
    response.body.push(Bytes::from_string(body)?)
}
