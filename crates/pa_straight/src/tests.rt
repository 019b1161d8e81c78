use super::read;
use std::alloc::{AllocError, Global};
use std::test::Fail;

const HELLO: &[u8] =
    b"#include <stdio.h>\nint main(void){\nputchar(72);\nputchar(105);\nreturn 7;\n}\n";

#[test]
fn hello_is_read(rt: HostRuntime) -> Result<(), Fail> {
    let hello = read(rt.alloc(), HELLO)?.expect(&rt, "a program");
    assert_eq!(rt; hello.prints.as_slice(), [72, 105].as_slice());
    assert_eq!(rt; hello.returns, 7);
    Ok(())
}

#[test]
fn other_texts_are_of_no_program(rt: HostRuntime) -> Result<(), Fail> {
    let texts: [&[u8]; 8] = [
        b"",
        b"#include <stdio.h>\nint main(void){\nreturn 07;\n}\n",
        b"#include <stdio.h>\nint main(void){\nreturn 7;\n}",
        b"#include <stdio.h>\nint main(void){\nreturn 2147483648;\n}\n",
        b"#include <stdio.h>\nint main(void){\nreturn ;\n}\n",
        b"#include <stdio.h>\r\nint main(void){\r\nreturn 7;\r\n}\r\n",
        b"#include <stdio.h>\nint main(void){\nputchar(+1);\nreturn 7;\n}\n",
        b"#include <stdio.h>\nint main(void){\nreturn 7;\n}\n\n",
    ];
    for text in texts {
        assert!(rt; read(rt.alloc(), text)?.is_none(), "{text:?}");
    }
    Ok(())
}

fn text_with(alloc: Global, prints: usize) -> Result<Vec<u8>, AllocError> {
    let mut text = Vec::from_slice(alloc, b"#include <stdio.h>\nint main(void){\n")?;
    for _ in 0..prints {
        text.extend_from_slice(b"putchar(2147483647);\n")?;
    }
    text.extend_from_slice(b"return 0;\n}\n")?;
    Ok(text)
}

#[test]
fn a_thousand_prints_are_the_most(rt: HostRuntime) -> Result<(), Fail> {
    let most = read(rt.alloc(), &text_with(rt.alloc(), 1000)?)?.expect(&rt, "a program");
    assert_eq!(rt; most.prints.len(), 1000);
    assert!(rt; read(rt.alloc(), &text_with(rt.alloc(), 1001)?)?.is_none());
    Ok(())
}
