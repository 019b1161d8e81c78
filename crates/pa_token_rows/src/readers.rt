//! A reader's first steps, and marks of type names.

use pa_grammar::{ParseError, Reader, SynRule, TypeNames, begins_type, needs};
use pa_lex::{Punct, lex};

/// `( int`: a mark and a type.
#[test]
fn reads_from_the_left(rt: HostRuntime) {
    match lex(rt.alloc(), b"( int") {
        Ok(lexed) => {
            let mut r = Reader::new(lexed.tokens.as_slice());
            assert!(rt; r.sees(Punct::LeftParenthesis));
            assert!(rt; r.expect(Punct::RightParenthesis).is_err());
            assert!(rt; r.expect(Punct::LeftParenthesis).is_ok());
            assert_eq!(rt; r.ended(), 1);
            assert!(rt; begins_type(&TypeNames::new(rt.alloc()), r.peek()));
        }
        Err(_) => assert!(rt; false),
    }
}

#[test]
fn tells_names_and_depths(rt: HostRuntime) {
    let mut names = TypeNames::new(rt.alloc());
    assert!(rt; names.push(300).is_ok());
    for (name, is_type) in [(300, true), (299, false), (301, false), (0, false)] {
        assert_eq!(rt; names.contains(name), is_type);
    }
    assert_eq!(rt; needs(200, 200), Ok(()));
    assert_eq!(rt; needs(201, 200), Err(ParseError::Broken(SynRule::S2)));
}
