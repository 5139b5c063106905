use hx_cases_base::{CaseFault, numbers};
use hx_outside::{FailMaker, MemFiles};
use std::alloc::Global;

/// A configuration, the files that it may name, and where its regular expressions are too large.
#[derive(Drop)]
pub struct Setting {
    pub config: Vec<u8>,
    pub files: Vec<(Vec<u8>, Vec<u8>)>,
    pub large: Vec<u64>,
}

impl Setting {
    /// An empty configuration without files.
    pub fn new(alloc: Global) -> Setting {
        Setting {
            config: Vec::new(alloc),
            files: Vec::new(alloc),
            large: Vec::new(alloc),
        }
    }

    /// The files, in memory.
    pub fn held(&self, alloc: Global) -> Result<MemFiles, CaseFault> {
        let mut held = Vec::new(alloc);
        for (name, text) in self.files.as_slice() {
            let name = name.as_slice().to_vec(alloc)?;
            held.push((name, text.as_slice().to_vec(alloc)?))?;
        }
        Ok(MemFiles::new(held, Vec::new(alloc)))
    }

    /// A maker of regular expressions that has made none yet.
    pub fn maker(&self, alloc: Global) -> Result<FailMaker, CaseFault> {
        Ok(FailMaker::new(self.large.as_slice().to_vec(alloc)?))
    }
}

/// The text that words with blanks between them make.
pub fn joined(alloc: Global, words: &[Vec<u8>]) -> Result<Vec<u8>, CaseFault> {
    let mut text = Vec::new(alloc);
    for word in words {
        text.extend_from_slice(word.as_slice())?;
        text.push(b' ')?;
    }
    text.pop();
    Ok(text)
}

/// `config TEXT`
pub fn config_case(
    alloc: Global,
    setting: &mut Setting,
    args: &[Vec<u8>],
) -> Result<(), CaseFault> {
    setting.config = joined(alloc, args)?;
    setting.files = Vec::new(alloc);
    setting.large = Vec::new(alloc);
    Ok(())
}

/// `file NAME TEXT`
pub fn file_case(alloc: Global, setting: &mut Setting, args: &[Vec<u8>]) -> Result<(), CaseFault> {
    let [name, words @ ..] = args else {
        return Err(CaseFault::BadArguments);
    };
    let name = name.as_slice().to_vec(alloc)?;
    Ok(setting.files.push((name, joined(alloc, words)?))?)
}

/// `large NUMBERS`
pub fn large_case(alloc: Global, setting: &mut Setting, args: &[Vec<u8>]) -> Result<(), CaseFault> {
    let [at] = args else {
        return Err(CaseFault::BadArguments);
    };
    setting.large = numbers(alloc, at.as_slice())?;
    Ok(())
}
