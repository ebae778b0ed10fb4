//! A script's bytes, from the source into a feed.
ghost use Rattle.std.specs.Prelude.{◌≡◌, ◌≢◌, ℕ, ◌+◌, ◌≤◌, ◌<◌, ◌++◌, List, [], length, IfOk, OnOk, OnErr, Err};
ghost use Rattle.std.specs.Io.KnownBytes.{IsAtEnd};
ghost use Rattle.cord_port.specs.Causes.{Rose};
ghost use Rattle.cord_port.specs.Texts.{Gave};
ghost use Rattle.cord_port.specs.declared.reading.ReadRefused.TheVariants.{TooLong, Fault};
ghost use Rattle.script_reader.specs.Fed.{HasGot, fed_length};
ghost use Rattle.cord_sessions.specs.declared.ending.TheConstants.{MOST_SCRIPT};
ghost use Rattle.cord_sessions.specs.Feeding.{IsFedFrom, IsPieceFed};

use crate::ending::MOST_SCRIPT;
use cord_port::{ReadRefused, Source};
use script_reader::{Memory, ScriptFeed};
use std::alloc::Global;

// How many bytes one read asks for.
const PIECE: usize = 65_536;

/// Feeds all bytes that are left, if they are at most 16,777,216; they are read through a buffer of 65,536 bytes. At most one
/// byte more than that limit is read.
pub fn feed_source<S: Source>(alloc: Global, source: &mut S) -> Result<ScriptFeed, ReadRefused>
    ensures fed { IfOk result (λ feed. IsFedFrom (S.left source.old) (S.left source.new) (S.given source.old) (S.given source.new) feed) }
    ensures end { OnOk result (IsAtEnd (S.left source.new)) }
    ensures lost { OnErr result ((bytes : List ℕ) × Gave (S.left source.old) (S.left source.new) (S.given source.old) (S.given source.new) bytes) }
    ensures long { result ≡ Err TooLong → S.given source.new ≡ S.given source.old + (MOST_SCRIPT + 1) }
    ensures short { result ≢ Err TooLong → S.given source.new ≤ S.given source.old + MOST_SCRIPT }
    ensures fault { result ≡ Err Fault → Rose (S.faults source.old) (S.faults source.new) }
    ensures kept { result ≢ Err Fault → S.faults source.new ≡ S.faults source.old }
{
    let mut room = Vec::new(alloc);
    if room.resize(PIECE, 0).is_err() {
        return Err(ReadRefused::Memory);
    }
    let mut feed = ScriptFeed::new(alloc);
    feed_all(source, room.as_mut_slice(), &mut feed)?;
    Ok(feed)
}

// Feeds all bytes that are left.
fn feed_all<S: Source>(
    source: &mut S,
    room: &mut [u8],
    feed: &mut ScriptFeed,
) -> Result<(), ReadRefused>
    requires room { 0 < length room.old }
    requires none { HasGot feed.old [] }
    ensures fed { OnOk result (IsFedFrom (S.left source.old) (S.left source.new) (S.given source.old) (S.given source.new) feed.new) }
    ensures end { OnOk result (IsAtEnd (S.left source.new)) }
    ensures lost { OnErr result ((bytes : List ℕ) × Gave (S.left source.old) (S.left source.new) (S.given source.old) (S.given source.new) bytes) }
    ensures long { result ≡ Err TooLong → S.given source.new ≡ S.given source.old + (MOST_SCRIPT + 1) }
    ensures short { result ≢ Err TooLong → S.given source.new ≤ S.given source.old + MOST_SCRIPT }
    ensures fault { result ≡ Err Fault → Rose (S.faults source.old) (S.faults source.new) }
    ensures kept { result ≢ Err Fault → S.faults source.new ≡ S.faults source.old }
{
    let mut count = 0;
    while count < MOST_SCRIPT {
        let more = feed_piece(source, room, MOST_SCRIPT - count, feed)?;
        if more == 0 {
            return Ok(());
        }
        count += more;
    }
    expect_end(source, room)
}

// The next bytes of the source, at most so many, into the feed.
fn feed_piece<S: Source>(
    source: &mut S,
    room: &mut [u8],
    most: usize,
    feed: &mut ScriptFeed,
) -> Result<usize, ReadRefused>
    requires some { 0 < most }
    requires room { 0 < length room.old }
    requires few { fed_length feed.old + most ≤ 16777216 }
    ensures more { IfOk result (λ n. IsPieceFed (S.left source.old) (S.left source.new) (S.given source.old) (S.given source.new) feed.old feed.new most n) }
    ensures end { IfOk result (λ n. n ≡ 0 → IsAtEnd (S.left source.new)) }
    ensures lost { OnErr result ((bytes : List ℕ) × (length bytes ≤ most) × Gave (S.left source.old) (S.left source.new) (S.given source.old) (S.given source.new) bytes) }
    ensures fault { result ≡ Err Fault → Rose (S.faults source.old) (S.faults source.new) }
    ensures kept { result ≢ Err Fault → S.faults source.new ≡ S.faults source.old }
    ensures long { result ≢ Err TooLong }
{
    let end = most.min(room.len());
    let (front, _) = room.split_at_mut(end);
    match source.read(front) {
        Ok(count) => match feed.feed(&front[..count]) {
            Ok(()) => Ok(count),
            Err(Memory) => Err(ReadRefused::Memory),
        },
        Err(_) => Err(ReadRefused::Fault),
    }
}

// Reads one byte more, which is one too many.
fn expect_end<S: Source>(source: &mut S, room: &mut [u8]) -> Result<(), ReadRefused>
    requires room { 0 < length room.old }
    ensures none { OnOk result (Gave (S.left source.old) (S.left source.new) (S.given source.old) (S.given source.new) []) }
    ensures end { OnOk result (IsAtEnd (S.left source.new)) }
    ensures lost { OnErr result ((bytes : List ℕ) × Gave (S.left source.old) (S.left source.new) (S.given source.old) (S.given source.new) bytes) }
    ensures long { result ≡ Err TooLong → S.given source.new ≡ S.given source.old + 1 }
    ensures short { result ≢ Err TooLong → S.given source.new ≡ S.given source.old }
    ensures fault { result ≡ Err Fault → Rose (S.faults source.old) (S.faults source.new) }
    ensures kept { result ≢ Err Fault → S.faults source.new ≡ S.faults source.old }
{
    let (front, _) = room.split_at_mut(1);
    match source.read(front) {
        Ok(0) => Ok(()),
        Ok(_) => Err(ReadRefused::TooLong),
        Err(_) => Err(ReadRefused::Fault),
    }
}
