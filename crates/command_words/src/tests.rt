// Which words are which command.
use crate::{Command, WordList, WordsError, read_words};
use std::alloc::{AllocError, Global};
use std::test::Fail;

// A first word, if there is one, and more.
fn words_of(alloc: Global, first: Option<&str>, more: &[&str]) -> Result<WordList, AllocError> {
    let mut list = WordList::new(alloc);
    if let Some(first) = first {
        list.push(first)?;
    }
    for word in more {
        list.push(word)?;
    }
    Ok(list)
}

// A command in words, `-` for no command. Kinds are told by their first letters.
fn told(alloc: Global, first: Option<&str>, more: &[&str]) -> Result<String, Fail> {
    let words = words_of(alloc, first, more)?;
    let command = match read_words(alloc, &words) {
        Ok(command) => command,
        Err(WordsError::Words) => return Ok("-".to_owned(alloc)?),
        Err(WordsError::Memory) => return Ok("memory".to_owned(alloc)?),
    };
    let text = match &command {
        Command::Offload {
            name,
            user,
            host,
            copies,
            kinds,
            drives,
        } => {
            let md5 = if kinds.md5 { "m" } else { "" };
            let sha1 = if kinds.sha1 { "s" } else { "" };
            let xxh = if kinds.xxh { "x" } else { "" };
            format!(in alloc;
                "offload {} {} {} {copies} {md5}{sha1}{xxh} {drives}",
                name.as_str(),
                user.as_str(),
                host.as_str()
            )?
        }
        Command::Verify { list } => format!(in alloc; "verify {}", list.as_str())?,
        Command::Print { list } => format!(in alloc; "print {}", list.as_str())?,
    };
    Ok(text)
}

#[test]
fn words_of_an_offload(rt: HostRuntime) -> Result<(), Fail> {
    let alloc = rt.alloc();
    // The words behind `offload`, and the command.
    let rows: [(&[&str], &str); 12] = [
        (
            &["A001", "ana@cart1", "1", "C", "D"],
            "offload A001 ana cart1 1 msx 1",
        ),
        (
            &["A001", "ana@cart1", "2", "C", "D", "E"],
            "offload A001 ana cart1 2 msx 2",
        ),
        (
            &["A", "b@c", "1", "C", "1", "2", "3", "4", "5", "6", "7", "8"],
            "offload A b c 1 msx 8",
        ),
        (
            &["A", "b@c", "8", "C", "1", "2", "3", "4", "5", "6", "7", "8"],
            "offload A b c 8 msx 8",
        ),
        (&["A", "b@c", "1:md5", "C", "D"], "offload A b c 1 m 1"),
        (&["A", "b@c", "1:sha1", "C", "D"], "offload A b c 1 s 1"),
        (&["A", "b@c", "1:xxh", "C", "D"], "offload A b c 1 x 1"),
        (
            &["A", "b@c", "1:md5+sha1", "C", "D"],
            "offload A b c 1 ms 1",
        ),
        (&["A", "b@c", "1:md5+xxh", "C", "D"], "offload A b c 1 mx 1"),
        (
            &["A", "b@c", "1:sha1+xxh", "C", "D"],
            "offload A b c 1 sx 1",
        ),
        (
            &["A", "b@c", "2:md5+sha1+xxh", "C", "D", "E"],
            "offload A b c 2 msx 2",
        ),
        (
            &["-", "_@-", "1", "/card one", "verify"],
            "offload - _ - 1 msx 1",
        ),
    ];
    for (more, wanted) in rows {
        let command = told(alloc, Some("offload"), more)?;
        assert_eq!(rt; command.as_str(), wanted);
    }
    Ok(())
}

#[test]
fn words_that_are_no_offload(rt: HostRuntime) -> Result<(), Fail> {
    let alloc = rt.alloc();
    let rows: [&[&str]; 36] = [
        &[],
        &["A", "b@c", "1"],
        &["A", "b@c", "1", "C"],
        &[
            "A", "b@c", "1", "C", "1", "2", "3", "4", "5", "6", "7", "8", "9",
        ],
        &["A", "b@c", "0", "C", "D"],
        &["A", "b@c", "2", "C", "D"],
        &["A", "b@c", "3", "C", "D", "E"],
        &["A", "b@c", "9", "C", "1", "2", "3", "4", "5", "6", "7", "8"],
        &["A", "b@c", "01", "C", "D"],
        &["A", "b@c", "+1", "C", "D"],
        &["A", "b@c", "1 ", "C", "D"],
        &["A", "b@c", "", "C", "D"],
        &["A", "b@c", "one", "C", "D"],
        &["A", "b@c", "1:", "C", "D"],
        &["A", "b@c", ":md5", "C", "D"],
        &["A", "b@c", "1:xxh+md5", "C", "D"],
        &["A", "b@c", "1:sha1+md5", "C", "D"],
        &["A", "b@c", "1:md5+md5", "C", "D"],
        &["A", "b@c", "1:md5+", "C", "D"],
        &["A", "b@c", "1:MD5", "C", "D"],
        &["A", "b@c", "1:md5:sha1", "C", "D"],
        &["A", "b@c", "0:md5", "C", "D"],
        &["A", "b@c", "1:md5,sha1", "C", "D"],
        &["", "b@c", "1", "C", "D"],
        &[".A", "b@c", "1", "C", "D"],
        &["A/B", "b@c", "1", "C", "D"],
        &["A", "b", "1", "C", "D"],
        &["A", "@c", "1", "C", "D"],
        &["A", "b@", "1", "C", "D"],
        &["A", "b@c@d", "1", "C", "D"],
        &["A", "b c@d", "1", "C", "D"],
        &["A", "b@c", "1", "", "D"],
        &["A", "b@c", "1", "C", ""],
        &["A", "b@c", "1", "C", "C"],
        &["A", "b@c", "1", "C", "D", "D"],
        &["A", "b@c", "1", "C", "D", "E", "C"],
    ];
    for more in rows {
        let command = told(alloc, Some("offload"), more)?;
        assert_eq!(rt; command.as_str(), "-", "at {more:?}");
    }
    Ok(())
}

#[test]
fn words_with_a_list(rt: HostRuntime) -> Result<(), Fail> {
    let alloc = rt.alloc();
    let rows: [(&[&str], &str); 20] = [
        (&["verify", "x.mhl", "D"], "verify x.mhl"),
        (&["print", "x.mhl", "D"], "print x.mhl"),
        (&["verify", "offload", "verify"], "verify offload"),
        (&[], "-"),
        (&[""], "-"),
        (&["offload"], "-"),
        (&["verify"], "-"),
        (&["verify", "x.mhl"], "-"),
        (&["verify", "x.mhl", "D", "E"], "-"),
        (&["verify", "x.mhl", ""], "-"),
        (&["verify", "a/x.mhl", "D"], "-"),
        (&["verify", "..", "D"], "-"),
        (&["verify", ".mhlstation", "D"], "-"),
        (&["print", "x.mhl"], "-"),
        (&["print", "x.mhl", "D", "E"], "-"),
        (&["print", "x.mhl", ""], "-"),
        (&["print", "a/x.mhl", "D"], "-"),
        (&["print", ".mhlstation", "D"], "-"),
        (&["Print", "x.mhl", "D"], "-"),
        (&["resume", "1", "C", "D"], "-"),
    ];
    for (words, wanted) in rows {
        let command = told(alloc, None, words)?;
        assert_eq!(rt; command.as_str(), wanted);
    }
    Ok(())
}
