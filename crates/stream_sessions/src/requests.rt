//! The requests of a script, served one after another.
ghost use Rattle.std.specs.Prelude.{◌≡◌, false, OnOk, IfErr};
ghost use Rattle.std.specs.Option.{is_some, option_map};
ghost use Rattle.history.specs.Members.{number_of};
ghost use Rattle.ssb_script.specs.Requests.{request_of, requests_of};
ghost use Rattle.stream_sessions.specs.OneRequest.{AreAlike, ServesOne, StopsIn};
ghost use Rattle.stream_sessions.specs.Served.{Serves, Ends};

use crate::kept::{keep_reply, make_room};
use crate::meter::{Meter, kind_of, question_count};
use crate::reply::reply_to;
use crate::serve_error::{ServeError, ServeStop};
use crate::service::Service;
use row_store::Follower;
use ssb_audit::Told;
use ssb_clients::Client;
use ssb_script::{Request, Script};
use std::io::Write;
use std::sync::Wait;

/// Serves one request of a client's script, and writes its report. Answers with rows are kept behind what was told
/// before, where any are kept. It waits as [`serve_requests`] does, and nothing is outstanding then. The meter is told
/// when the request begins, and when it ends where it was served and reported.
pub fn serve_request<W: Follower + Drop, R: Wait, K, O: Write, M: Meter>(
    service: &Service<'_, W, R, K>,
    client: &mut Client<W>,
    request: Request,
    writer: &mut O,
    told: &mut Option<Vec<Told>>,
    meter: &mut M,
) -> Result<(), ServeStop>
    requires table { client.old.table ≡ service.now.server.now }
    requires quiet { is_some client.old.asked ≡ false }
    ensures served { OnOk result (ServesOne (number_of client.old.who) client.old client.new (request_of request)
        (option_map (λ kept. kept.items) told.old) (option_map (λ kept. kept.items) told.new)
        (O.contents writer.old) (O.contents writer.new)) }
    ensures stopped { IfErr result (λ stop. StopsIn stop (number_of client.old.who) client.old client.new
        (request_of request) (option_map (λ kept. kept.items) told.old) (option_map (λ kept. kept.items) told.new)
        (O.contents writer.old) (O.contents writer.new)) }
    ensures same { AreAlike client.old client.new }
{
    let number = client.number();
    let kind = kind_of(&request);
    meter.begin();
    let Ok(()) = make_room(told, question_count(&request)) else {
        return Err(ServeStop::OutOfMemory);
    };
    let Ok(reply) = reply_to(service, client, number, request) else {
        return Err(ServeStop::OutOfMemory);
    };
    let written = reply.write(writer);
    keep_reply(told, number, reply);
    match written {
        Ok(()) => {
            meter.end(kind);
            Ok(())
        }
        Err(_) => Err(ServeStop::Write),
    }
}

/// Serves the requests of a client's script in order, and writes their report. The answers with rows are kept behind
/// what was told before, where any are kept. It waits for the rows and for answers; a dispatcher has to take its turns
/// meanwhile.
///
/// A failed write ends it: the requests before it and its own have been served. Where memory runs out for an answer, it
/// ends before its question is asked. In each case nothing is outstanding then. The meter is told when each request
/// begins and ends.
pub fn serve_requests<W: Follower + Drop, R: Wait, K, O: Write, M: Meter>(
    service: &Service<'_, W, R, K>,
    client: &mut Client<W>,
    script: Script,
    writer: &mut O,
    told: &mut Option<Vec<Told>>,
    meter: &mut M,
) -> Result<(), ServeError>
    requires table { client.old.table ≡ service.now.server.now }
    requires quiet { is_some client.old.asked ≡ false }
    ensures served { OnOk result (Serves (number_of client.old.who) client.old client.new (requests_of script)
        (option_map (λ kept. kept.items) told.old) (option_map (λ kept. kept.items) told.new)
        (O.contents writer.old) (O.contents writer.new)) }
    ensures ended { IfErr result (λ error. Ends error (number_of client.old.who) client.old client.new
        (requests_of script) (option_map (λ kept. kept.items) told.old) (option_map (λ kept. kept.items) told.new)
        (O.contents writer.old) (O.contents writer.new)) }
    ensures same { AreAlike client.old client.new }
{
    let mut requests = script.requests.into_iter();
    let mut done = 0;
    while let Some(request) = requests.next() {
        match serve_request(service, client, request, writer, told, meter) {
            Ok(()) => done += 1,
            Err(stop) => return Err(stop.after(done)),
        }
    }
    Ok(())
}
