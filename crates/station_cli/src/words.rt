// The words of the program, as the system hands them over.
use command_words::WordList;
use std::alloc::{AllocError, Global};
use std::env::{Env, FillError};

/// The bytes of the longest word that the system hands over.
const LONGEST_WORD: usize = 131_072;

/// The words of the program. One that is not UTF-8, or is too long, becomes the empty word, which fits no row.
pub fn program_words(env: &impl Env, alloc: Global) -> Result<WordList, AllocError> {
    let mut words = WordList::new(alloc);
    let mut buffer = vec![in alloc; 0u8; LONGEST_WORD]?;
    for i in 1..usize::MAX {
        match env.arg(i, &mut buffer) {
            Ok(len) => words.push(str::from_utf8(&buffer[..len]).unwrap_or(""))?,
            Err(FillError::TooLong) => words.push("")?,
            Err(FillError::NotPresent) => break,
        }
    }
    Ok(words)
}

#[cfg(test)]
mod tests {
    use super::*;
    use std::test::Fail;

    // A system that hands over these words, the program's name first.
    #[derive(Drop)]
    struct Handed<'a> {
        words: &'a [&'a [u8]],
    }

    impl Env for Handed<'_> {
        fn arg(&self, i: usize, buf: &mut [u8]) -> Result<usize, FillError> {
            let Some(word) = self.words.get(i) else {
                return Err(FillError::NotPresent);
            };
            if word.len() > buf.len() {
                return Err(FillError::TooLong);
            }
            buf[..word.len()].copy_from_slice(word);
            Ok(word.len())
        }

        fn var(&self, _name: &str, _buf: &mut [u8]) -> Result<usize, FillError> {
            Err(FillError::NotPresent)
        }

        fn var_at(&self, _i: usize, _buf: &mut [u8]) -> Result<usize, FillError> {
            Err(FillError::NotPresent)
        }
    }

    #[test]
    fn the_words_of_the_system_are_taken(rt: HostRuntime) -> Result<(), Fail> {
        let alloc = rt.alloc();
        let long = vec![in alloc; b'a'; 131_073]?;
        let handed = [
            "station_cli".as_bytes(),
            "verify".as_bytes(),
            &[0xff],
            &long,
            "D".as_bytes(),
        ];
        let words = program_words(&Handed { words: &handed }, alloc)?;
        assert_eq!(rt; words.count(), 4);
        for (i, wanted) in ["verify", "", "", "D"].iter().enumerate() {
            if i < words.count() {
                assert_eq!(rt; words.word(i), *wanted);
            }
        }
        Ok(())
    }
}
