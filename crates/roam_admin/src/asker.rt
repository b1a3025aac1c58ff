//! The answers over HTTP: each order is put on a desk, and the server's own thread answers it.

use crate::caller::Caller;
use crate::desk::{Course, Desk, NoReply, Office, Reply};
use crate::missing::Handed;
use crate::order::{Asked, Order};
use bytes::{BufMut, Bytes};
use http::{HeaderValue, Method, Request, StatusCode, header};
use http_server::{Response, Service};
use log::{Log, warn};
use roam_conf::decimal;
use roam_metrics::StatusForm;
use std::alloc::AllocError;
use std::fmt;
use std::fmt::{Display, Formatter};
use std::sync::Wait;

/// The socket at which somebody asks.
#[derive(Clone, Copy, PartialEq, Eq)]
pub enum Door {
    /// The endpoint of metrics, which has nothing else.
    Metrics,
    /// The control socket.
    Control,
}

impl Display for Door {
    fn fmt<W: fmt::Write>(&self, f: &mut Formatter<W>) -> fmt::Result {
        f.write_str(match self {
            Door::Metrics => "the endpoint of metrics",
            Door::Control => "the control socket",
        })
    }
}

/// The questions that a socket answers, and who answers them.
#[derive(Drop)]
pub struct Asker<'d, R> {
    pub rt: &'d R,
    pub office: &'d Office,
    pub door: Door,
    /// Over which connection it is asked now.
    pub caller: Caller,
    /// The stored steps that the last answer has, until that is asked for.
    pub handed: Option<Handed>,
}

/// The order that a path stands for.
#[derive(Clone, Copy, PartialEq, Eq)]
enum ControlRequest {
    Metrics,
    Status(StatusForm),
    Trace,
    Stop,
    Reload,
}

/// Returns what a path asks for at the control socket.
fn asked_by(path: &str) -> Option<ControlRequest> {
    match path {
        "/metrics" => Some(ControlRequest::Metrics),
        "/status" => Some(ControlRequest::Status(StatusForm::Text)),
        "/status.json" => Some(ControlRequest::Status(StatusForm::Json)),
        "/stop" => Some(ControlRequest::Stop),
        "/reload" => Some(ControlRequest::Reload),
        "/trace" => Some(ControlRequest::Trace),
        _ => None,
    }
}

/// Returns what a path asks for at a door.
fn asked_at(door: Door, path: &str) -> Option<ControlRequest> {
    match door {
        Door::Control => asked_by(path),
        Door::Metrics if path == "/metrics" => Some(ControlRequest::Metrics),
        Door::Metrics => None,
    }
}

/// Returns the methods by which it can be asked for.
fn methods(door: Door, asked: ControlRequest) -> HeaderValue {
    match (door, asked) {
        (_, ControlRequest::Stop | ControlRequest::Reload) => HeaderValue::from_static("POST"),
        (Door::Metrics, _) => HeaderValue::from_static("GET, HEAD"),
        (Door::Control, _) => HeaderValue::from_static("GET"),
    }
}

/// Returns whether a method is the right one.
fn is_right(door: Door, asked: ControlRequest, method: &Method) -> bool {
    match (door, asked) {
        (_, ControlRequest::Stop | ControlRequest::Reload) => *method == Method::POST,
        (Door::Metrics, _) => *method == Method::GET || *method == Method::HEAD,
        (Door::Control, _) => *method == Method::GET,
    }
}

/// Reads the shard that a query names: `shard=N`.
fn shard_of(query: Option<&str>) -> Option<u16> {
    let number = decimal(query?.strip_prefix("shard=")?, 0, 65535)?;
    u16::try_from(number).ok()
}

/// Returns the order that a path and its query give.
fn order_of(asked: ControlRequest, query: Option<&str>) -> Option<Order> {
    match asked {
        ControlRequest::Metrics => Some(Order::Metrics),
        ControlRequest::Status(form) => Some(Order::Status(form)),
        ControlRequest::Stop => Some(Order::Stop),
        ControlRequest::Reload => match query {
            None => Some(Order::Reload(false)),
            Some("lose") => Some(Order::Reload(true)),
            Some(_) => None,
        },
        ControlRequest::Trace => match shard_of(query) {
            Some(shard) => Some(Order::Trace(shard)),
            None => None,
        },
    }
}

/// Returns the word by which an order is asked for, where it changes something.
fn word_of(order: Order) -> &'static str {
    match order {
        Order::Metrics => "metrics",
        Order::Status(_) => "status",
        Order::Stop => "stop",
        Order::Reload(_) => "reload",
        Order::Trace(_) => "trace",
    }
}

/// Returns the form in which the body of an answer is.
fn kind_of(asked: ControlRequest) -> HeaderValue {
    match asked {
        ControlRequest::Metrics => HeaderValue::from_static("text/plain; version=0.0.4"),
        ControlRequest::Status(StatusForm::Json) => HeaderValue::from_static("application/json"),
        _ => HeaderValue::from_static("text/plain; charset=utf-8"),
    }
}

/// Returns the status of an answer (RFC 9110, section 15).
fn status_of(course: Course) -> StatusCode {
    match course {
        Course::Done => StatusCode::OK,
        Course::Begun => StatusCode::ACCEPTED,
        Course::Unknown => StatusCode::NOT_FOUND,
        Course::Declined => StatusCode::CONFLICT,
        Course::Unavailable => StatusCode::SERVICE_UNAVAILABLE,
    }
}

/// Writes an answer.
fn write_reply(
    response: &mut Response,
    asked: ControlRequest,
    reply: &Reply,
) -> Result<(), AllocError> {
    response.status = status_of(reply.course);
    response.add_header(header::CONTENT_TYPE, kind_of(asked))?;
    response.body.put_slice(reply.body.as_slice())
}

impl<'d, R> Asker<'d, R> {
    /// Returns the one who answers at a door. Nobody asks yet.
    pub fn new(rt: &'d R, office: &'d Office, door: Door) -> Asker<'d, R> {
        Asker {
            rt,
            office,
            door,
            caller: Caller::none(),
            handed: None,
        }
    }

    /// Takes the stored steps of the answer that was given since this was asked last.
    pub fn take_handed(&mut self) -> Option<Handed> {
        self.handed.take()
    }
}

impl<R: Wait + Log> Asker<'_, R> {
    /// Returns the desk of its door.
    fn desk(&self) -> &Desk {
        match self.door {
            Door::Metrics => &self.office.metrics,
            Door::Control => &self.office.control,
        }
    }

    /// Writes an answer. Answers which stored steps it has; those for which there was no memory are missing.
    fn write(
        &self,
        asked: ControlRequest,
        reply: &Reply,
        response: &mut Response,
    ) -> Result<Option<Handed>, AllocError> {
        match write_reply(response, asked, reply) {
            Ok(()) => Ok(reply.handed),
            Err(error) => {
                if let Some(handed) = reply.handed {
                    self.office.missing.add(handed);
                }
                Err(error)
            }
        }
    }

    /// Tells that an order isn't carried out, since whoever asked for it had closed the connection.
    fn tell_withdrawn(&self, order: Order, no_reply: NoReply) {
        if no_reply == NoReply::Withdrawn {
            warn!(self.rt; "{} not carried out: the caller closed the connection first", word_of(order));
        }
    }

    /// Has an order be answered. Answers which stored steps the answer has.
    fn answer(
        &self,
        asked_for: ControlRequest,
        query: Option<&str>,
        response: &mut Response,
    ) -> Result<Option<Handed>, AllocError> {
        let Some(order) = order_of(asked_for, query) else {
            response.status = StatusCode::NOT_FOUND;
            return Ok(None);
        };
        let office = self.office;
        let caller = self.caller;
        let asked = Asked { order, caller };
        match self
            .desk()
            .ask(self.rt, &office.attendant, &office.is_over, asked)
        {
            Ok(reply) => self.write(asked_for, &reply, response),
            Err(no_reply) => {
                self.tell_withdrawn(order, no_reply);
                response.status = StatusCode::SERVICE_UNAVAILABLE;
                Ok(None)
            }
        }
    }
}

impl<R: Wait + Log> Service for Asker<'_, R> {
    ghost answers = { λ old request response new. Unit {0} };

    fn call(
        &mut self,
        request: &Request<Bytes>,
        response: &mut Response,
    ) -> Result<(), AllocError> {
        response.add_header(header::CONNECTION, HeaderValue::from_static("close"))?;
        let Some(asked) = asked_at(self.door, request.uri().path()) else {
            response.status = StatusCode::NOT_FOUND;
            return Ok(());
        };
        if !is_right(self.door, asked, request.method()) {
            response.status = StatusCode::METHOD_NOT_ALLOWED;
            return response.add_header(header::ALLOW, methods(self.door, asked));
        }
        self.handed = self.answer(asked, request.uri().query(), response)?;
        Ok(())
    }
}
