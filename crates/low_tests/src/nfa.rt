//! The most positions that a pattern may have, where a match is done, and many copies.

use js_nfa::{Atom, NfaFault, Scratch, finds, positions};
use js_pattern::read_pattern;
use std::alloc::Global;
use std::test::Fail;

#[test]
fn most_positions(rt: HostRuntime) -> Result<(), Fail> {
    let Ok(re) = read_pattern(rt.alloc(), "a{16384}") else {
        return Err("no pattern")?;
    };
    let Ok(nfa) = positions(rt.alloc(), &re) else {
        return Err("no automaton")?;
    };
    assert_eq!(rt; nfa.len(), 16384);
    Ok(())
}

#[test]
fn too_many_positions(rt: HostRuntime) -> Result<(), Fail> {
    let Ok(re) = read_pattern(rt.alloc(), "(?:a{16384}){2}") else {
        return Err("no pattern")?;
    };
    let Err(fault) = positions(rt.alloc(), &re) else {
        return Err("an automaton")?;
    };
    assert_eq!(rt; fault, NfaFault::LimitPositions);
    Ok(())
}

#[test]
fn done_at_the_last_copy(rt: HostRuntime) -> Result<(), Fail> {
    let Ok(re) = read_pattern(rt.alloc(), "(?:a|b){3}c") else {
        return Err("no pattern")?;
    };
    let Ok(nfa) = positions(rt.alloc(), &re) else {
        return Err("no automaton")?;
    };
    let mut scratch = Scratch::room(rt.alloc(), &nfa)?;
    let found = ['b', 'c', 'a', 'b', 'a', 'c', 'b'];
    assert!(rt; finds(&nfa, found.as_slice(), &mut scratch));
    let missed = ['b', 'c', 'a', 'b', 'c', 'b', 'a'];
    assert!(rt; !finds(&nfa, missed.as_slice(), &mut scratch));
    Ok(())
}

/// Seventy copies take more than one word of flags.
#[test]
fn copies_in_two_words(rt: HostRuntime) -> Result<(), Fail> {
    let mut word = vec![in rt.alloc(); 'a'; 70]?;
    word.push('0')?;
    let found = [
        "[a-z]{70}0",
        "^a{65,}0",
        "^(?:a|b){70}0$",
        "^(?:a|b){65,}0",
        "^(?:b|a|c){70}0$",
        "^(?:a?){70}0$",
    ];
    for pattern in found {
        assert!(rt; is_found(rt.alloc(), pattern, word.as_slice())?);
    }
    let missed = [
        "[a-z]{71}0",
        "^a{71,}0",
        "^(?:a|b){69}0$",
        "^(?:a|b){71,}0",
        "^(?:b|a|c){69}0$",
        "^(?:a?){69}0$",
    ];
    for pattern in missed {
        assert!(rt; !is_found(rt.alloc(), pattern, word.as_slice())?);
    }
    Ok(())
}

/// With more than 256 positions there are no follow sets.
#[test]
fn copies_without_follow_sets(rt: HostRuntime) -> Result<(), Fail> {
    let mut word = vec![in rt.alloc(); 'a'; 300]?;
    word.push('0')?;
    let found = [
        "[a-z]{255}0",
        "[a-z]{256}0",
        "[a-z]{300}0",
        "^(?:a|b){300}0$",
        "^(?:[ab][ac]){150}0$",
        "^(?:a?){300}0$",
    ];
    for pattern in found {
        assert!(rt; is_found(rt.alloc(), pattern, word.as_slice())?);
    }
    let missed = [
        "[a-z]{301}0",
        "^(?:a|b){299}0$",
        "^(?:[ab][ac]){151}0$",
        "^(?:a?){299}0$",
    ];
    for pattern in missed {
        assert!(rt; !is_found(rt.alloc(), pattern, word.as_slice())?);
    }
    Ok(())
}

/// A character beyond ASCII between others, and first of all.
#[test]
fn characters_without_follow_sets(rt: HostRuntime) -> Result<(), Fail> {
    let word = ['é', 'a', 'é', 'b', 'c'];
    let found = ["^éaé[ab]c$", "(?:é|a){3}b", "[^a]b", "^[^a-z]a"];
    for pattern in found {
        assert!(rt; is_found(rt.alloc(), pattern, word.as_slice())?);
    }
    let missed = ["^aé", "(?:é|a){4}", "é$", "é^b"];
    for pattern in missed {
        assert!(rt; !is_found(rt.alloc(), pattern, word.as_slice())?);
    }
    Ok(())
}

fn shared<T: Send + Sync>(x: &T) -> &T {
    x
}

/// Threads may send and share atoms.
#[test]
fn atoms_cross_threads(rt: HostRuntime) -> Result<(), Fail> {
    let Ok(re) = read_pattern(rt.alloc(), "^a+") else {
        return Err("no pattern")?;
    };
    let of_pattern = Atom::Match(re);
    let of_length = Atom::LengthMin(2);
    assert!(rt; *shared(&of_pattern) == of_pattern);
    assert!(rt; *shared(&of_pattern) != of_length);
    Ok(())
}

fn is_found(alloc: Global, pattern: &str, word: &[char]) -> Result<bool, Fail> {
    let Ok(re) = read_pattern(alloc, pattern) else {
        return Err("no pattern")?;
    };
    let Ok(nfa) = positions(alloc, &re) else {
        return Err("no automaton")?;
    };
    let mut scratch = Scratch::room(alloc, &nfa)?;
    Ok(finds(&nfa, word, &mut scratch))
}
