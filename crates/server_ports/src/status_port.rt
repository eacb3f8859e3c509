//! The status port of a site: read-only, over HTTP/1.1, with a few threads of its own.

use crate::serve_fault::ServeFault;
use crate::status_service::StatusService;
use crate::watched_site::WatchedSite;
use http_server::{Config, Connection, serve};
use server_core::{LONGEST_STATUS, StatusStream};
use std::alloc::{AllocError, Global};
use std::hash::RandomState;
use std::net::{TcpListener, TcpStream};
use std::random::RandomSource;
use std::rt::Clock;
use std::sync::{Arc, Mutex, Wait};
use std::thread::Threads;
use std::time::{Duration, Instant};
use std::{io, thread};
use world::Shareable;

/// The most connections that are served at a time.
const STATUS_SEATS: u64 = 4;

/// The stack of a thread that serves them, in bytes.
const STATUS_STACK: usize = 2 * 1_048_576;

/// The pause after a connection couldn't be accepted, in milliseconds.
const PAUSE: u64 = 100;

/// The longest body of a request in bytes: none is read.
const LONGEST_BODY: usize = 0;

/// The state that the threads of a status port share.
#[derive(Drop)]
pub struct StatusPort<R, S> {
    pub rt: R,
    pub alloc: Global,
    /// The address at which the port listens, as it was given, if it answers only requests for this
    /// machine. None if it is open to others, which may have any name for it.
    pub address: Option<String>,
    /// The site that is watched. None while it is being restored.
    watched: Mutex<Option<Arc<S, Global>>>,
}

impl<R: Wait, S: Drop> StatusPort<R, S> {
    /// Returns the port of a site that is being restored. The address is there if the port answers
    /// only requests for this machine.
    pub fn new(rt: R, alloc: Global, address: Option<String>) -> StatusPort<R, S> {
        StatusPort {
            rt,
            alloc,
            address,
            watched: Mutex::new(None),
        }
    }

    /// Watches this restored site from now on.
    pub fn watch(&self, site: &Arc<S, Global>) -> Result<(), AllocError> {
        let site = Arc::try_clone(site)?;
        *self.watched.lock(&self.rt) = Some(site);
        Ok(())
    }

    /// Returns the site that is watched, if it is restored.
    pub fn site(&self) -> Result<Option<Arc<S, Global>>, AllocError> {
        let watched = self.watched.lock(&self.rt);
        match &*watched {
            Some(site) => Ok(Some(Arc::try_clone(site)?)),
            None => Ok(None),
        }
    }
}

/// Starts the threads of a status port. They run as long as the program does.
pub fn begin_status<
    R: Threads + Wait + Clock + RandomSource + Shareable,
    S: WatchedSite + Shareable,
>(port: &Arc<StatusPort<R, S>, Global>, listener: TcpListener) -> Result<(), ServeFault> {
    let Ok(listener) = Arc::new(port.alloc, listener) else {
        return Err(ServeFault::OutOfMemory);
    };
    for _seat in 0..STATUS_SEATS {
        let (own, listener) = (Arc::try_clone(port)?, Arc::try_clone(&listener)?);
        let seat = thread::Builder::new()
            .stack_size(STATUS_STACK)
            .spawn(&port.rt, move || answer_all(&own, &listener));
        if seat.is_err() {
            return Err(ServeFault::OutOfMemory);
        }
    }
    Ok(())
}

/// Answers one connection to the server's status port after another, forever.
fn answer_all<R: Wait + Clock + RandomSource + Drop, S: WatchedSite + Drop>(
    port: &StatusPort<R, S>,
    listener: &TcpListener,
) {
    for _connection in port.rt.forever() {
        match listener.accept() {
            Ok((stream, _)) => {
                // A failure is the client's affair: the thread goes on with the next connection.
                let _ = answer_connection(port, &stream);
            }
            Err(_) => thread::sleep(&port.rt, Duration::from_millis(PAUSE)),
        }
    }
}

/// Answers the HTTP request of a connection to the server's status port, within the deadline.
fn answer_connection<R: Wait + Clock + RandomSource + Drop, S: WatchedSite + Drop>(
    port: &StatusPort<R, S>,
    stream: &TcpStream,
) -> io::Result<()> {
    let now = Instant::now(&port.rt)?;
    let Some(deadline) = now.checked_add(Duration::from_secs(LONGEST_STATUS)) else {
        return Ok(());
    };
    let _ = stream.set_nodelay(true);
    let mut reader = StatusStream {
        rt: &port.rt,
        stream,
        deadline,
    };
    let mut writer = StatusStream {
        rt: &port.rt,
        stream,
        deadline,
    };
    let config = Config {
        max_body_len: LONGEST_BODY,
        ..Config::default()
    };
    let mut service = StatusService { port };
    let mut connection = Connection::new(port.alloc, RandomState::new(&port.rt)?, config);
    serve(&mut connection, &mut service, &mut reader, &mut writer)
}
