ghost use Rattle.std.specs.Prelude.{◌≡◌, ◌++◌, ◌||◌, codes};
ghost use Rattle.std.specs.Option.{option_copied};
ghost use Rattle.std.specs.Str.{bytes_eq};
ghost use Rattle.hx_base.specs.Pairs.{pairs_of, value_at};
ghost use Rattle.hx_program.specs.Parts.{all_of};
ghost use Rattle.hx_program.specs.Version.{commit_text, version_of};
ghost use Rattle.hx_program.specs.declared.about.TheConstants.{KIT};

use crate::parts::Parts;

/// The variable in which the scripts at the top of the repository tell the commit.
const COMMIT: &[u8] = b"HXEVAL_COMMIT";

/// The kit that proves and builds the programs.
const KIT: &[u8] = b"rattle-kit-13f logic dac8208d650f15bf\n";

/// Whether a word of the command line asks for the usage: `--help` or `-h`.
pub fn is_help(word: &[u8]) -> bool
    ensures { result ≡ (bytes_eq word.now (codes "--help") || bytes_eq word.now (codes "-h")) }
{
    word == b"--help".as_slice() || word == b"-h".as_slice()
}

/// Whether a word of the command line asks for the version: `--version`.
pub fn is_version(word: &[u8]) -> bool
    ensures { result ≡ bytes_eq word.now (codes "--version") }
{
    word == b"--version".as_slice()
}

/// What the program of this name says of its version, in its parts: `NAME, commit COMMIT` where the
/// environment `env` has a commit, and else who tells it, and then the kit.
pub fn version<'t>(name: &'t [u8], env: &'t [(Vec<u8>, Vec<u8>)]) -> Parts<'t>
    ensures { all_of result ≡ version_of name.now (pairs_of env.now) }
{
    version_at(name, value_of(env, COMMIT))
}

/// The same with this commit, if it is known.
fn version_at<'t>(name: &'t [u8], commit: Option<&'t [u8]>) -> Parts<'t>
    ensures { all_of result ≡ name.now ++ (commit_text name.now (option_copied commit.entry)
        ++ (codes "\nkit " ++ KIT.now)) }
{
    match commit {
        Some(commit) => [
            name,
            b", commit ",
            commit,
            b"",
            b"\nkit ",
            KIT,
            b"",
            b"",
            b"",
            b"",
            b"",
            b"",
            b"",
        ],
        None => [
            name,
            b"; ./",
            name,
            b" --version at the top of its repository tells the commit",
            b"\nkit ",
            KIT,
            b"",
            b"",
            b"",
            b"",
            b"",
            b"",
            b"",
        ],
    }
}

/// The value of the first variable of this name.
fn value_of<'e>(env: &'e [(Vec<u8>, Vec<u8>)], name: &[u8]) -> Option<&'e [u8]>
    ensures { option_copied result ≡ value_at (pairs_of env.now) name.now }
{
    let mut rest = env;
    while let [(known, value), others @ ..] = rest {
        if known.as_slice() == name {
            return Some(value.as_slice());
        }
        rest = others;
    }
    None
}
