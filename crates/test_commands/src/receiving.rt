//! Bytes that go over one link.
use crate::desk::Desk;
use std::alloc::Global;
use zed_document::Document;
use zed_link::{Link, LinkError, MemoryLink, Pulled, receive, send};

/// Pulls bytes into a new document of a world, and tells the document's edits and the answer.
fn receive_over(link: &mut MemoryLink, world: u64, desk: &mut Desk) {
    let mut document = Document::new(desk.alloc, world);
    let pulled = receive(desk.alloc, link, &mut document);
    tell_pulled(&document, pulled, desk)
}

fn tell_pulled(document: &Document, pulled: Result<Pulled, LinkError>, desk: &mut Desk) {
    desk.told.size(document.edits().len());
    desk.take(&counts_of(pulled))
}

/// How many edits were taken, held and known.
pub fn counts_of<E: Drop>(pulled: Result<Pulled, E>) -> Result<(usize, usize, usize), E> {
    match pulled {
        Ok(pulled) => Ok((pulled.taken, pulled.held, pulled.known)),
        Err(error) => Err(error),
    }
}

/// Pulls bytes, so many by a read, of which so many pass before one fails.
pub fn tell_received(desk: &mut Desk) {
    let world = desk.tape.number();
    let piece = desk.tape.size();
    let passing = desk.tape.option();
    let bytes = desk.tape.bytes(desk.alloc);
    let mut link = MemoryLink::new(desk.alloc, bytes, piece, passing);
    receive_over(&mut link, world, desk);
    desk.told.number(link.reads());
    desk.told.number(link.failures());
    desk.told.end()
}

/// Sends bytes, so many by a write, of which so many pass before one fails.
pub fn tell_sent(desk: &mut Desk) {
    let piece = desk.tape.size();
    let passing = desk.tape.option();
    let bytes = desk.tape.bytes(desk.alloc);
    let mut link = MemoryLink::new(desk.alloc, Vec::new(desk.alloc), piece, passing);
    let answer = send(&mut link, bytes.as_slice());
    desk.take(&answer);
    desk.told.number(link.failures());
    desk.told.bytes(link.taken());
    desk.told.end()
}

/// The document of world 7 with the edits of a file, or without edits where there are no bytes.
pub fn document_of(alloc: Global, file: Vec<u8>) -> Document {
    let mut document = Document::new(alloc, 7);
    if !file.is_empty() {
        let mut link = MemoryLink::new(alloc, file, 4096, None);
        let _ = receive(alloc, &mut link, &mut document);
    }
    document
}
