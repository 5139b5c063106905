use crate::text::push_encoded;
use hx_cases_base::CaseFault;
use sha2::{Digest, Sha256};
use std::alloc::Global;

/// What a call answers.
#[derive(Drop)]
pub struct Answer {
    pub status: u8,
    pub text: Vec<u8>,
}

impl Answer {
    /// The status, and the text, where there is one.
    pub fn whole(&self, alloc: Global) -> Result<Vec<u8>, CaseFault> {
        let status = self.status;
        let mut out = Vec::new(alloc);
        out.extend_from_slice(format!(in alloc; "{status}")?.as_bytes())?;
        if !self.text.is_empty() {
            out.push(b' ')?;
            push_encoded(&mut out, self.text.as_slice())?;
        }
        Ok(out)
    }

    /// The status, and the length and the SHA-256 of the text.
    pub fn sum(&self, alloc: Global) -> Result<Vec<u8>, CaseFault> {
        let status = self.status;
        let len = self.text.len();
        let digest = hex::encode(alloc, &Sha256::digest(self.text.as_slice()))?;
        let sum = format!(in alloc; "{status} {len} {digest}")?;
        Ok(sum.as_bytes().to_vec(alloc)?)
    }
}
