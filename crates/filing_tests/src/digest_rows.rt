//! Digests that FIPS 180-4 gives, of logs that come in pieces; and logs that have none.
ghost use Rattle.std.specs.Prelude.{◌≤◌};

use audit_base::faults::NoMemory;
use audit_base::terms::Which;
use log_digests::digest_shelf::DigestShelf;
use log_digests::digests::digest_log;
use log_digests::digits::read_digest;
use log_digests::feeds::{DigestFeed, DigestingFeed};
use log_digests::lines::digest_text;
use log_source::feed::Feed;
use log_source::memory_shelf::MemoryShelf;
use log_source::quiet_shelf::QuietShelf;
use log_source::take::TakeFault;
use std::alloc::Global;
use std::test::Fail;

/// A message of FIPS 180-4 that takes two blocks.
const TWO_BLOCKS: &str = "abcdbcdecdefdefgefghfghighijhijkijkljklmklmnlmnomnopnopq";

/// The digits of the digest of `abc`.
const MESSAGE_DIGITS: &[u8] = b"ba7816bf8f01cfea414140de5dae2223b00361a396177a9cb410ff61f20015ad";

const EMPTY_TEXT: &[u8] =
    b"sha256,orders,e3b0c44298fc1c149afbf4c8996fb92427ae41e4649b934ca495991b7852b855\n\
      sha256,trades,e3b0c44298fc1c149afbf4c8996fb92427ae41e4649b934ca495991b7852b855\n";

const MESSAGE_TEXT: &[u8] =
    b"sha256,orders,ba7816bf8f01cfea414140de5dae2223b00361a396177a9cb410ff61f20015ad\n\
      sha256,trades,248d6a61d20638b8e5c026930c3e6039a33ce45964ff2167f6ecedd419db06c1\n";

// Two logs that come in pieces of this size.
fn logs_of(alloc: Global, orders: &str, trades: &str, piece: usize) -> Result<QuietShelf, NoMemory>
    requires { 1 ≤ piece }
{
    let orders = Vec::from_slice(alloc, orders.as_bytes())?;
    let trades = Vec::from_slice(alloc, trades.as_bytes())?;
    Ok(QuietShelf::new(orders, trades, piece))
}

// The text of the digests of both logs.
fn text_of(alloc: Global, shelf: &mut QuietShelf) -> Result<Vec<u8>, TakeFault> {
    let orders = digest_log(shelf, Which::Orders, "orders", 100)?;
    let trades = digest_log(shelf, Which::Trades, "trades", 100)?;
    Ok(digest_text(alloc, &orders, &trades)?)
}

#[test]
fn messages_of_the_standard_in_pieces(rt: HostRuntime) -> Result<(), Fail> {
    for piece in 1..=64 {
        let mut shelf = logs_of(rt.alloc(), "abc", TWO_BLOCKS, piece)?;
        let text = text_of(rt.alloc(), &mut shelf)?;
        assert!(rt; text.as_slice() == MESSAGE_TEXT, "pieces of {piece}");
    }
    Ok(())
}

#[test]
fn empty_logs(rt: HostRuntime) -> Result<(), Fail> {
    let mut shelf = logs_of(rt.alloc(), "", "", 1)?;
    let text = text_of(rt.alloc(), &mut shelf)?;
    assert!(rt; text.as_slice() == EMPTY_TEXT);
    Ok(())
}

#[test]
fn a_digest_beside_what_another_feed_keeps(rt: HostRuntime) -> Result<(), Fail> {
    let mut feed = DigestingFeed::over(DigestFeed::new());
    feed.feed(b"a")?;
    feed.feed(b"bc")?;
    let (digest, other) = feed.end();
    let expected = text_of(rt.alloc(), &mut logs_of(rt.alloc(), "abc", "abc", 2)?)?;
    let text = digest_text(rt.alloc(), &digest, &other.digest())?;
    assert!(rt; text == expected);
    Ok(())
}

// The trade log is read twice: its digest is that of the last time.
#[test]
fn digests_of_logs_that_are_read_by_something_else(rt: HostRuntime) -> Result<(), Fail> {
    let orders = Vec::from_slice(rt.alloc(), b"abc")?;
    let trades = Vec::from_slice(rt.alloc(), TWO_BLOCKS.as_bytes())?;
    let mut shelf = DigestShelf::over(QuietShelf::new(orders, trades, 2), "o", "t");
    for which in [Which::Orders, Which::Trades, Which::Trades] {
        digest_log(&mut shelf, which, "any", 100)?;
    }
    let (orders, trades) = (shelf.digest(Which::Orders), shelf.digest(Which::Trades));
    let text = digest_text(rt.alloc(), &orders, &trades)?;
    assert!(rt; text.as_slice() == MESSAGE_TEXT);
    Ok(())
}

#[test]
fn digits_are_read_in_lower_case_alone(rt: HostRuntime) -> Result<(), Fail> {
    let mut feed = DigestFeed::new();
    feed.feed(b"abc")?;
    assert!(rt; read_digest(MESSAGE_DIGITS) == Some(feed.digest()));
    assert!(rt; read_digest(b"ba7816bf8f01cfea").is_none());
    assert!(rt; read_digest(&[b'A'; 64]).is_none());
    Ok(())
}

#[test]
fn a_log_that_is_one_byte_too_long(rt: HostRuntime) -> Result<(), Fail> {
    let mut shelf = logs_of(rt.alloc(), "abc", "", 2)?;
    let digest = digest_log(&mut shelf, Which::Orders, "orders", 2);
    assert!(rt; matches!(digest, Err(TakeFault::TooLong)));
    assert!(rt; digest_log(&mut shelf, Which::Orders, "orders", 3).is_ok());
    Ok(())
}

// The log takes a start and three reads.
#[test]
fn each_call_that_fails(rt: HostRuntime) -> Result<(), Fail> {
    for fails in 1..=5 {
        let fails_at = Vec::from_slice(rt.alloc(), &[fails])?;
        let mut shelf = MemoryShelf::new(rt.alloc(), 2, fails_at);
        let name = String::from_str(rt.alloc(), "orders")?;
        shelf.put(name, Vec::from_slice(rt.alloc(), b"abc")?)?;
        let digest = digest_log(&mut shelf, Which::Orders, "orders", 100);
        assert!(rt; digest.is_ok() == (fails == 5), "call {fails}");
    }
    Ok(())
}
