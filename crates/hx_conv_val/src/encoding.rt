ghost use Rattle.std.specs.Prelude.{◌≡◌, IfOk};
ghost use Rattle.hx_conv_val.specs.Encodings.{base64_text, base64url_text, base64_bytes, base64url_bytes, digest_of};
ghost use Rattle.hx_conv_val.specs.Forms.{bytes_value, text_value};
ghost use Rattle.hx_sample.specs.Seen.{value_of, occurrence_value};

use crate::form::{BytesForm, TextForm};
use crate::hex_number::hex_number;
use base64::DecodeAllocError;
use base64::engine::general_purpose::{STANDARD, URL_SAFE_NO_PAD};
use hx_sample::{Bytes, Sample};
use hx_text::{NoMemory, Octets};
use sha2::{Digest, Sha224, Sha256, Sha384, Sha512};
use std::alloc::Global;

#[tactic(auto, unfolding(crate::specs::Encodings::base64_text))]
fn base64_text(alloc: Global, bytes: &[u8]) -> Result<Octets, NoMemory>
    ensures { IfOk result (λ text. text ≡ base64_text bytes.now) }
{
    Ok(Octets::from_vec(STANDARD.encode(alloc, bytes)?.into_bytes()))
}

#[tactic(auto, unfolding(crate::specs::Encodings::base64url_text))]
fn base64url_text(alloc: Global, bytes: &[u8]) -> Result<Octets, NoMemory>
    ensures { IfOk result (λ text. text ≡ base64url_text bytes.now) }
{
    Ok(Octets::from_vec(URL_SAFE_NO_PAD.encode(alloc, bytes)?.into_bytes()))
}

#[tactic(auto, unfolding(crate::specs::Encodings::base64_bytes))]
fn base64_bytes(alloc: Global, text: &[u8]) -> Result<Option<Octets>, NoMemory>
    ensures { IfOk result (λ bytes. bytes ≡ base64_bytes text.now) }
{
    match STANDARD.decode(alloc, text) {
        Ok(bytes) => Ok(Some(Octets::from_vec(bytes))),
        Err(DecodeAllocError::DecodeError(_)) => Ok(None),
        Err(DecodeAllocError::OutOfMemory) => Err(NoMemory),
    }
}

#[tactic(auto, unfolding(crate::specs::Encodings::base64url_bytes))]
fn base64url_bytes(alloc: Global, text: &[u8]) -> Result<Option<Octets>, NoMemory>
    ensures { IfOk result (λ bytes. bytes ≡ base64url_bytes text.now) }
{
    match URL_SAFE_NO_PAD.decode(alloc, text) {
        Ok(bytes) => Ok(Some(Octets::from_vec(bytes))),
        Err(DecodeAllocError::DecodeError(_)) => Ok(None),
        Err(DecodeAllocError::OutOfMemory) => Err(NoMemory),
    }
}

fn digest_of(alloc: Global, bits: Option<u16>, bytes: &[u8]) -> Result<Octets, NoMemory>
    ensures { IfOk result (λ digest. digest ≡ digest_of bits bytes.now) }
{
    let digest = match bits {
        Some(224) => Sha224::digest(bytes).to_vec(alloc)?,
        Some(384) => Sha384::digest(bytes).to_vec(alloc)?,
        Some(512) => Sha512::digest(bytes).to_vec(alloc)?,
        _ => Sha256::digest(bytes).to_vec(alloc)?,
    };
    Ok(Octets::from_vec(digest))
}

pub(crate) fn convert_bytes<'a>(
    alloc: Global,
    conv: BytesForm,
    bytes: &[u8],
) -> Result<Sample<'a>, NoMemory>
    ensures { IfOk result (λ out. value_of out ≡ bytes_value conv bytes.now) }
{
    match conv {
        BytesForm::Base64 => Ok(Sample::Str(Bytes::Own(base64_text(alloc, bytes)?))),
        BytesForm::Ub64enc => Ok(Sample::Str(Bytes::Own(base64url_text(alloc, bytes)?))),
        BytesForm::Hex => {
            let digits = hex::encode_upper(alloc, bytes)?;
            Ok(Sample::Str(Bytes::Own(Octets::from_vec(digits.into_bytes()))))
        }
        BytesForm::Sha2(bits) => Ok(Sample::Bin(Bytes::Own(digest_of(alloc, bits, bytes)?))),
    }
}

pub(crate) fn convert_text<'a>(
    alloc: Global,
    conv: TextForm,
    text: &[u8],
) -> Result<Option<Sample<'a>>, NoMemory>
    ensures { IfOk result (λ out. occurrence_value out ≡ text_value conv text.now) }
{
    match conv {
        TextForm::B64dec => match base64_bytes(alloc, text)? {
            Some(bytes) => Ok(Some(Sample::Bin(Bytes::Own(bytes)))),
            None => Ok(None),
        },
        TextForm::Ub64dec => match base64url_bytes(alloc, text)? {
            Some(bytes) => Ok(Some(Sample::Bin(Bytes::Own(bytes)))),
            None => Ok(None),
        },
        TextForm::Hex2i => Ok(Some(Sample::Int(hex_number(text)))),
    }
}
