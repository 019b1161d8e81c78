//! From a task to what its run leaves.

ghost use Rattle.std.specs.Prelude.{◌≡◌, IfOk, IfErr};
ghost use Rattle.pa_image.specs.declared.image.Image as declared;
ghost use Rattle.pa_image.specs.Bytes.{IsImage};
ghost use Rattle.pa_image.specs.Pal.{pal};
ghost use Rattle.pa_load.specs.Loaded.{IsLoaded, state_of};
ghost use Rattle.pa_straight.specs.Source.{IsSource};
ghost use Rattle.pa_straight_image.specs.Image.{image_of};
ghost use Rattle.pa_paclab.specs.Runs.{code_of, IsRun, RunStops};

use pa_engine::Ran;
use pa_image::{Image, read_image, write_image};
use pa_load::Loaded;
use pa_machine::Machine;
use pa_num::{Fault, Memory};
use pa_pac::{FoldPac, Pac, SipPac, ZeroPac};
use pa_script::{ScriptRule, fits};
use pa_straight::Straight;
use pa_straight_image::{load_program, program_image};
use pa_task::{Exit, Refusal, Task};
use pa_words::{PacName, RunOptions};
use std::alloc::Global;

/// The bytes of the image of a program.
fn compile(alloc: Global, program: &Straight) -> Result<Vec<u8>, Memory>
    requires { IsSource program.now }
    ensures { IfOk result (λ bytes. IsImage (image_of program.now) bytes.items) }
{
    let image = program_image(alloc, program)?;
    write_image(alloc, &image)
}

/// The image that these bytes stand for.
fn read_back(alloc: Global, bytes: &[u8]) -> Result<Image, Memory>
    requires { (image : declared.Image) × IsImage image bytes.now }
    ensures { IfOk result (λ image. IsImage image bytes.now) }
{
    match read_image(alloc, bytes) {
        Ok(image) => Ok(image),
        Err(Fault::Refused { .. }) => unreachable!(),
        Err(Fault::Memory) => Err(Memory),
    }
}

/// A program's image, written, read again, and loaded beside the runtime image.
fn load_written<P: Pac>(
    alloc: Global,
    program: &Straight,
    slide: u16,
    p: &P,
) -> Result<Loaded, Memory>
    requires { IsSource program.now }
    ensures { IfOk result (λ loaded. IsLoaded (P.code p.now) (image_of program.now) pal slide (state_of loaded)) }
{
    let bytes = compile(alloc, program)?;
    let image = read_back(alloc, &bytes)?;
    load_program(alloc, &image, slide, p)
}

/// What the run of a task leaves under a PAC function, or why nothing is run.
fn run_under<P: Pac>(alloc: Global, task: &Task, options: &RunOptions, p: &P) -> Result<Ran, Exit>
    requires { IsSource task.now.program }
    ensures ok { IfOk result (λ ran. IsRun (P.code p.now) options.now task.now ran.output ran.end ran.log.entries) }
    ensures err { IfErr result (RunStops (P.code p.now) options.now task.now) }
{
    let loaded = load_written(alloc, &task.program, options.slide, p)?;
    if let Some(line) = fits(&task.script, &loaded.space) {
        let refusal = Refusal::bad_line(ScriptRule::P4, u64::from(line));
        return Err(Exit::Refused(refusal));
    }
    let mut machine = Machine::new(alloc, loaded, task.input.as_slice(), p)?;
    let end = machine.run(task.script.as_slice(), options.steps)?;
    let (output, log) = machine.into_parts();
    Ok(Ran { output, end, log })
}

/// What the run of a task leaves under the PAC function that the options name, or why nothing is run.
pub fn run_task<P: Pac>(
    alloc: Global,
    task: &Task,
    options: &RunOptions,
    host: &P,
) -> Result<Ran, Exit>
    requires { IsSource task.now.program }
    ensures ok { IfOk result (λ ran.
        IsRun (code_of (P.code host.now) options.now) options.now task.now ran.output ran.end ran.log.entries) }
    ensures err { IfErr result (RunStops (code_of (P.code host.now) options.now) options.now task.now) }
{
    match options.pac {
        PacName::Host => run_under(alloc, task, options, host),
        PacName::Sip => {
            let sip = SipPac {
                k0: options.seed,
                k1: 0,
            };
            run_under(alloc, task, options, &sip)
        }
        PacName::Zero => run_under(alloc, task, options, &ZeroPac),
        PacName::Fold => run_under(alloc, task, options, &FoldPac),
    }
}
