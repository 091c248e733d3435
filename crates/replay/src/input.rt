//! The records of a journal as they come in.

use crate::call::{Call, QUERY};
use crate::kind::CallKind;
use anyhow::{Context, anyhow};
use std::alloc::AllocError;
use std::io::{self, ErrorKind, Read};
use tariffs::written;

/// What is said of an input that ends within a record, or that cannot be read.
fn cut_off(error: io::Error) -> anyhow::Error {
    match error.kind() {
        ErrorKind::UnexpectedEof => anyhow!("a record is cut off"),
        _ => anyhow::Error::from(error),
    }
}

/// A reader of records, and the body of the last one.
#[derive(Drop)]
pub(crate) struct Input<R: Read + Drop> {
    reader: R,
    body: Vec<u8>,
    length: usize,
}

impl<R: Read + Drop> Input<R> {
    pub(crate) fn new(rt: &HostRuntime, reader: R) -> Result<Input<R>, AllocError> {
        Ok(Input {
            reader,
            body: vec![in rt.alloc(); 0; 65535]?,
            length: 0,
        })
    }

    /// The four bytes of the next record's head, none at the end of the input.
    fn head(&mut self) -> anyhow::Result<Option<[u8; 4]>> {
        let mut head = [0; 4];
        let count = self.reader.read(&mut head)?;
        if count == 0 {
            return Ok(None);
        }
        self.reader.read_exact(&mut head[count..]).map_err(cut_off)?;
        Ok(Some(head))
    }

    /// The body of the last record.
    fn body(&self) -> &[u8] {
        written(self.body.as_slice(), self.length)
    }

    /// The query of the last record, which is an ask.
    pub(crate) fn query(&self) -> &[u8] {
        self.body().get(QUERY..).unwrap_or(&[])
    }

    /// Reads so many bytes of a body.
    fn fill(&mut self, length: usize) -> anyhow::Result<()> {
        self.length = length;
        let body = self.body.as_mut_slice().get_mut(..length);
        let body = body.context("a body is too long")?;
        self.reader.read_exact(body).map_err(cut_off)
    }

    /// The next call, none at the end of the input.
    pub(crate) fn call(&mut self) -> anyhow::Result<Option<Call>> {
        let Some(head) = self.head()? else {
            return Ok(None);
        };
        let [l0, l1, k0, k1] = head;
        self.fill(usize::from(u16::from_le_bytes([l0, l1])))?;
        let kind = CallKind::try_from(u16::from_le_bytes([k0, k1]))
            .ok()
            .context("a record is of no kind of call")?;
        let call = Call::read(kind, self.body());
        Ok(Some(call.context("a body has not the form of its kind")?))
    }
}
