//! The bytes of a proof while they are written.

ghost use Rattle.std.specs.Prelude.{◌≡◌, ◌*◌, ◌≤◌, length, IfOk};
ghost use Rattle.proof_plan.specs.Sizes.{head_length, proof_length};
ghost use Rattle.proof_format.specs.Head.{head, rows_bytes};
ghost use Rattle.proof_format.specs.TextParts.{HasRoom, with_bytes};
ghost use Rattle.transcript.specs.Transcript.{bytes_of};

use crate::head::{MAGIC, VERSION};
use proof_plan::Plan;
use std::alloc::{AllocError, Global};
use std::marker::Model;
use tower_field::B128;

/// The bytes of a proof, in memory that is taken at the beginning. Contracts see how many are due and
/// those that are written.
#[derive(Drop)]
pub struct ProofText {
    length: usize,
    bytes: Vec<u8>,
}

impl Model for ProofText {
    ghost use Rattle.proof_format.specs.TextParts.{TextParts};
    ghost use Rattle.std.specs.Prelude.{◌≤◌, vec_capacity, vec_len};

    ghost Value = { TextParts };

    ghost view = { λ text. record { length = text.length; bytes = text.bytes.items } };

    ghost invariant = { λ text. record { within : vec_len text.bytes ≤ text.length; room : text.length ≤ vec_capacity text.bytes } };
}

impl ProofText {
    /// The text of a proof of this plan, with its head: the digest of the tables, and the rows of each.
    pub fn begin(
        alloc: Global,
        plan: &Plan,
        digest: &[u8; 32],
        rows: &[u32],
    ) -> Result<ProofText, AllocError>
        requires { plan.now.tables ≡ length rows.now }
        ensures length { IfOk result (λ text. text.length ≡ proof_length plan.now.tables plan.now.packed_log plan.now.entries) }
        ensures head { IfOk result (λ text. text.bytes ≡ head digest.now rows.now) }
    {
        let length = plan.byte_length() as usize;
        let bytes = Vec::with_capacity(alloc, length)?;
        let mut text = ProofText { length, bytes };
        text.push_head(digest, rows);
        Ok(text)
    }

    fn push_head(&mut self, digest: &[u8; 32], rows: &[u32])
        requires { HasRoom self.old (head_length (length rows.now)) }
        ensures { self.new ≡ with_bytes self.old (head digest.now rows.now) }
    {
        self.push_bytes(&MAGIC);
        self.push_bytes(&[VERSION]);
        self.push_bytes(digest);
        self.push_rows(rows);
    }

    fn push_rows(&mut self, rows: &[u32])
        requires { HasRoom self.old (4 * length rows.now) }
        ensures { self.new ≡ with_bytes self.old (rows_bytes rows.now) }
    {
        for m in rows {
            self.push_bytes(&m.to_le_bytes());
        }
    }

    fn push_bytes(&mut self, bytes: &[u8])
        requires { HasRoom self.old (length bytes.now) }
        ensures { self.new ≡ with_bytes self.old bytes.now }
    {
        if self.bytes.extend_from_slice(bytes).is_err() {
            unreachable!();
        }
    }

    /// Appends the root of a word.
    pub fn push_root(&mut self, root: &[u8; 32])
        requires { HasRoom self.old 32 }
        ensures { self.new ≡ with_bytes self.old root.now }
    {
        self.push_bytes(root);
    }

    /// Appends values, 16 bytes each, the lowest first.
    pub fn push_values(&mut self, values: &[B128])
        requires { HasRoom self.old (16 * length values.now) }
        ensures { self.new ≡ with_bytes self.old (bytes_of values.now) }
    {
        for value in values {
            self.push_bytes(&value.to_bytes());
        }
    }

    /// Appends the bytes of openings.
    pub fn push_openings(&mut self, bytes: &[u8])
        requires { HasRoom self.old (length bytes.now) }
        ensures { self.new ≡ with_bytes self.old bytes.now }
    {
        self.push_bytes(bytes);
    }

    /// The bytes that are written.
    pub fn bytes(&self) -> &[u8]
        ensures { result.now ≡ self.now.bytes }
    {
        self.bytes.as_slice()
    }

    /// All bytes.
    pub fn finish(self) -> Vec<u8>
        requires { length self.bytes ≡ self.length }
        ensures { result.items ≡ self.bytes }
    {
        self.bytes
    }
}
