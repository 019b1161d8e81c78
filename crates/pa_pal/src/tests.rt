use super::pal;
use pa_image::write_image;
use std::test::Fail;

// By the tables of the Arm Architecture Reference Manual: pacibsp, svc #1, retab, pacibsp, svc #2, retab.
const WORDS: [u32; 6] = [
    0xd503_237f,
    0xd400_0021,
    0xd65f_0fff,
    0xd503_237f,
    0xd400_0041,
    0xd65f_0fff,
];

#[test]
fn both_functions_stand_in_the_image(rt: HostRuntime) -> Result<(), Fail> {
    let image = pal(rt.alloc())?;
    assert_eq!(rt; image.text.as_slice(), WORDS.as_slice());
    let names: [&[u8]; 2] = [b"_putchar", b"_getchar"];
    for (mark, (name, at)) in image.marks.as_slice().iter().zip(names.iter().zip([0, 3])) {
        assert_eq!(rt; mark.name.as_slice(), *name);
        assert_eq!(rt; mark.at, at);
        assert!(rt; mark.public);
    }
    assert_eq!(rt; image.marks.len(), 2);
    assert_eq!(rt; write_image(rt.alloc(), &image)?.len(), 32_907);
    Ok(())
}
