//! The run of an image's bytes: read, checked, loaded beside the runtime image, and run.

ghost use Rattle.std.specs.Prelude.{◌≡◌, ◌≤◌, length, true, IfOk};
ghost use Rattle.pa_macho.specs.declared.header.Role.TheVariants as role;
ghost use Rattle.pa_object.specs.Script.{all_fit};
ghost use Rattle.pa_image.specs.declared.image.Image as declared;
ghost use Rattle.pa_image.specs.Bytes.{IsImage};
ghost use Rattle.pa_image.specs.Pal.{pal};
ghost use Rattle.pa_image.specs.Reading as reading;
ghost use Rattle.pa_image.specs.Small.{small_limit, IsSmall};
ghost use Rattle.pa_image.specs.Writing.{AreBytes, IsLegal};
ghost use Rattle.pa_check.specs.Windowed as windowed;
ghost use Rattle.pa_load.specs.Loaded.{first_missing, state_of};
ghost use Rattle.pa_script.specs.Rules.{first_unfit};
ghost use Rattle.pa_engine.specs.declared.fault.EngineFault.TheVariants as fault;
ghost use Rattle.pa_engine.specs.ImageRun.{ImageRun, unread, unwindowed, no_program, unexported, unfit, refusal_of, Answers, DoesNotRefuse, IsBegun, Leaves, IsAnswer};

use crate::fault::{EngineFault, Refusal, Rule};
use crate::reports::Ran;
use pa_check::{Verdict, check};
use pa_image::{Image, read_image};
use pa_load::{Loaded, load};
use pa_machine::Machine;
use pa_macho::Role;
use pa_mem::Space;
use pa_num::{Fault, Memory};
use pa_pac::Pac;
use pa_pal::pal;
use pa_script::{Script, ScriptRule, fits};
use std::alloc::Global;

/// The number of the image among the files.
const IMAGE_FILE: u32 = 1;

/// The number of the script.
const SCRIPT_FILE: u32 = 66;

/// Where the file type stands in a header.
const FILE_TYPE: u64 = 12;

/// A rule that the image breaks.
fn refused(rule: Rule, place: u64) -> EngineFault
    ensures { result ≡ fault.Refused (record { rule = rule; file = 1; place = place }) }
{
    EngineFault::Refused(Refusal {
        rule,
        file: IMAGE_FILE,
        place,
    })
}

/// Bytes are numbers below 256: a law, and nothing is done.
fn bytes_fit(bytes: &[u8])
    ensures { AreBytes bytes.now }
{
    let _ = bytes;
}

/// An image that bytes stand for is legal: a law, and nothing is done.
fn stands_legal(image: &Image, bytes: &[u8])
    requires { IsImage image.now bytes.now }
    ensures { IsLegal image.now }
{
    bytes_fit(bytes);
    bytes_fit(image.cells.as_slice());
}

/// The image that these bytes stand for.
fn read(alloc: Global, bytes: &[u8]) -> Result<Image, EngineFault>
    ensures found { IfOk result (λ image. IsImage image bytes.now) }
    ensures only { (image : declared.Image) → IsImage image bytes.now → DoesNotRefuse result }
    ensures flaw { Answers result (unread (reading.first_flaw bytes.now)) }
{
    match read_image(alloc, bytes) {
        Ok(image) => Ok(image),
        Err(Fault::Refused { rule, place }) => Err(refused(Rule::Image(rule), place)),
        Err(Fault::Memory) => Err(EngineFault::Memory),
    }
}

/// Refuses an image that isn't windowed.
fn check_code(image: &Image) -> Result<(), EngineFault>
    requires { IsLegal image.now }
    ensures { Answers result (unwindowed (windowed.first_flaw image.now)) }
{
    match check(image) {
        Verdict::Windowed => Ok(()),
        Verdict::Bad { offset, rule } => Err(refused(Rule::Code(rule), offset)),
    }
}

/// Refuses a library.
fn check_role(image: &Image) -> Result<(), EngineFault>
    ensures { Answers result (no_program image.now.role) }
{
    match image.role {
        Role::Main => Ok(()),
        Role::Library => Err(refused(Rule::B2, FILE_TYPE)),
    }
}

/// Loads a program beside the runtime image.
fn load_program<P: Pac>(
    alloc: Global,
    image: &Image,
    slide: u16,
    p: &P,
) -> Result<Loaded, EngineFault>
    requires legal { IsLegal image.now }
    requires small { IsSmall image.now }
    requires program { image.now.role ≡ role.Main }
    ensures loaded { IfOk result (IsBegun (P.code p.now) image.now slide) }
    ensures missing { Answers result (unexported (first_missing image.now pal)) }
{
    let runtime = pal(alloc)?;
    match load(alloc, image, &runtime, slide, p) {
        Ok(loaded) => Ok(loaded),
        Err(Fault::Refused { rule, place }) => Err(refused(Rule::Load(rule), place)),
        Err(Fault::Memory) => Err(EngineFault::Memory),
    }
}

/// Refuses a script with an item that doesn't fit the memory.
fn check_script(script: &Script, space: &Space) -> Result<(), EngineFault>
    ensures first { Answers result (unfit (first_unfit script.now space.now)) }
    ensures all { IfOk result (λ _. all_fit script.now space.now ≡ true) }
{
    match fits(script, space) {
        None => Ok(()),
        Some(line) => Err(EngineFault::Refused(Refusal {
            rule: Rule::Script(ScriptRule::P4),
            file: SCRIPT_FILE,
            place: u64::from(line),
        })),
    }
}

/// Loads an image that no check refuses.
fn load_checked<P: Pac>(
    alloc: Global,
    image: &Image,
    script: &Script,
    slide: u16,
    p: &P,
) -> Result<Loaded, EngineFault>
    requires legal { IsLegal image.now }
    requires small { IsSmall image.now }
    ensures loaded { IfOk result (IsBegun (P.code p.now) image.now slide) }
    ensures fits { IfOk result (λ made. all_fit script.now made.space ≡ true) }
    ensures refusal { Answers result (refusal_of (P.code p.now) slide script.now image.now) }
{
    check_code(image)?;
    check_role(image)?;
    let loaded = load_program(alloc, image, slide, p)?;
    check_script(script, &loaded.space)?;
    Ok(loaded)
}

/// Runs a program that is loaded.
fn run_loaded<P: Pac>(
    alloc: Global,
    loaded: Loaded,
    input: &[u8],
    script: &Script,
    steps: u32,
    p: &P,
) -> Result<Ran, Memory>
    requires { all_fit script.now loaded.space ≡ true }
    ensures { IfOk result (Leaves (P.code p.now) script.now steps (state_of loaded) input.now) }
{
    let mut machine = Machine::new(alloc, loaded, input, p)?;
    let end = machine.run(script.as_slice(), steps)?;
    let (output, log) = machine.into_parts();
    Ok(Ran { output, end, log })
}

/// Runs the program of an image's bytes for at most so many instructions, beside a script and with this input: read, checked,
/// loaded `slide` pages above where its file says beside the runtime image, and run under `p`. It is refused at the first
/// flaw of the bytes, the first place that breaks a rule of the checker, where it is a library (B2), at the first import that the
/// runtime image doesn't export (B1), and at the first line of the script that doesn't fit the memory (P4), in this order.
pub fn run_image<P: Pac>(
    alloc: Global,
    image: &[u8],
    input: &[u8],
    script: &Script,
    slide: u16,
    steps: u32,
    p: &P,
) -> Result<Ran, EngineFault>
    requires { length image.now ≤ small_limit }
    ensures { let r : ImageRun = record {
      code = P.code p.now;
      bytes = image.now;
      slide = slide;
      script = script.now;
      input = input.now;
      steps = steps;
    } in IsAnswer r result }
{
    let program = read(alloc, image)?;
    stands_legal(&program, image);
    let loaded = load_checked(alloc, &program, script, slide, p)?;
    let ran = run_loaded(alloc, loaded, input, script, steps, p)?;
    Ok(ran)
}
