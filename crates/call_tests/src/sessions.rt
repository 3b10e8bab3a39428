//! Sessions that end by their limit, by a read that fails or by a write that fails; and a text that no route writes yet.
use dh_base::memory::Memory;
use dh_base::plain::CutKind;
use dh_outside::{MemLink, MemSink, MemSource};
use http_wire::Request;
use request_session::{
    Ended, Machine, Reply, serve_link, serve_requests, update_body, whole_reply,
};
use std::alloc::Global;
use std::test::Fail;

// Answers each request with its path.
#[derive(Drop)]
struct Paths;

impl Machine for Paths {
    ghost use Rattle.std.specs.Prelude.{⊤};

    ghost step = { λ _ _ _ _ _. ⊤ };

    #[tactic(auto, using(request_session::proofs::HeadLemmas::ok_status))]
    fn reply(&mut self, alloc: Global, request: &Request, keep: bool) -> Result<Reply, Memory> {
        let body = request.path.as_slice().to_vec(alloc)?;
        Ok(whole_reply(200, None, None, keep, body))
    }
}

const REQUESTS: &str = "GET /a HTTP/1.1\r\n\r\nGET /bc HTTP/1.1\r\n\r\n";

const REPLIES: &str =
    "HTTP/1.1 200 OK\r\nContent-Type: application/json;charset=UTF-8\r\nContent-Length: 2\r\nConnection: keep-alive\r\n\r\n/a\
    HTTP/1.1 200 OK\r\nContent-Type: application/json;charset=UTF-8\r\nContent-Length: 3\r\nConnection: keep-alive\r\n\r\n/bc";

const LAST_CLOSES: &str =
    "HTTP/1.1 200 OK\r\nContent-Type: application/json;charset=UTF-8\r\nContent-Length: 2\r\nConnection: keep-alive\r\n\r\n/a\
    HTTP/1.1 200 OK\r\nContent-Type: application/json;charset=UTF-8\r\nContent-Length: 3\r\nConnection: close\r\n\r\n/bc";

// How a session ends that may answer so many requests, if this read fails and there is room for so many bytes. Fails
// if it writes another text.
fn ends(alloc: Global, most: u64, failing: u64, room: u64, text: &str) -> Result<Ended, Fail> {
    let reads = vec![in alloc; failing]?;
    let mut source = MemSource::with(alloc, REQUESTS.as_bytes().to_vec(alloc)?, reads)?;
    let mut sink = MemSink::with(alloc, room, Vec::new(alloc))?;
    let ended = serve_requests(alloc, &mut Paths, &mut source, &mut sink, most);
    if sink.written() == text.as_bytes() {
        Ok(ended)
    } else {
        Err(Fail::from("another text is written"))
    }
}

#[test]
fn the_last_reply_that_is_allowed_closes(rt: HostRuntime) -> Result<(), Fail> {
    assert!(rt; ends(rt.alloc(), 2, 0, 1000, LAST_CLOSES)? == Ended::Limit);
    assert!(rt; ends(rt.alloc(), 3, 0, 1000, REPLIES)? == Ended::Closed);
    Ok(())
}

#[test]
fn a_link_is_answered(rt: HostRuntime) -> Result<(), Fail> {
    let alloc = rt.alloc();
    let bytes = REQUESTS.as_bytes().to_vec(alloc)?;
    let mut link = MemLink::with(alloc, bytes, Vec::new(alloc));
    assert!(rt; serve_link(alloc, &mut Paths, &mut link, 3) == Ended::Closed);
    assert!(rt; link.written() == REPLIES.as_bytes());
    assert!(rt; link.heard().len() == 1);
    Ok(())
}

#[test]
fn reads_and_writes_fail_after_some_replies(rt: HostRuntime) -> Result<(), Fail> {
    let alloc = rt.alloc();
    assert!(rt; ends(alloc, 3, 1, 1000, "")? == Ended::ReadFault);
    assert!(rt; ends(alloc, 3, 2, 1000, REPLIES)? == Ended::ReadFault);
    assert!(rt; ends(alloc, 3, 0, 10, "HTTP/1.1 2")? == Ended::WriteFault);
    let begun = REPLIES.get(..120).unwrap_or("");
    assert!(rt; ends(alloc, 3, 0, 120, begun)? == Ended::WriteFault);
    Ok(())
}

#[test]
fn an_update_of_the_latest_has_its_text(rt: HostRuntime) -> Result<(), Fail> {
    let body = update_body(CutKind::Latest, 7);
    assert_eq!(rt;
        body.bytes(),
        br#"{"httpStatus":"OK","httpStatusCode":200,"response":{"kind":"LATEST","published":7},"status":"OK"}"#.as_slice()
    );
    Ok(())
}
