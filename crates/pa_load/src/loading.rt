ghost use Rattle.std.specs.Prelude.{◌≡◌, ◌≤◌, ◌<◌, ◌+◌, ◌-◌, ◌^◌, [], true, IfOk};
ghost use Rattle.pa_mem.specs.Memory.{all_apart, write_xor_run};
ghost use Rattle.pa_macho.specs.declared.header.Role.TheVariants as role;
ghost use Rattle.pa_macho.specs.Layout.{Ordered, places_of};
ghost use Rattle.pa_image.specs.declared.image.Image.{Image};
ghost use Rattle.pa_image.specs.Bytes.{header_of};
ghost use Rattle.pa_image.specs.Small.{IsSmall};
ghost use Rattle.pa_image.specs.Writing.{IsLegal};
ghost use Rattle.pa_load.specs.Loaded as spec;
ghost use Rattle.pa_load.specs.Loaded.{IsLoaded, filling, first_missing, import_addresses, state_of};
ghost use Rattle.pa_load.specs.Answers.{AnswersMissing};
ghost use Rattle.pa_load.specs.Filling.{filling_log};
ghost use Rattle.pa_load.specs.Mapping.{Fits, memory_of, program_of};
ghost use Rattle.pa_load.specs.Ready.{AllReady};

use crate::exports::Exports;
use crate::filling::{Placed, fill};
use crate::rule::LoadRule;
use crate::segments::{STACK_BASE, STACK_SIZE, Segments, add_stack};
use pa_image::Image;
use pa_log::Log;
use pa_macho::{FRONT, Places};
use pa_mem::Space;
use pa_num::{Bytes, Fault, Memory, Sequence};
use pa_pac::Pac;
use pa_processor::Loaded;
use pa_slots::PAGE;
use std::alloc::Global;

/// The addresses of the program's imports, or the first that the runtime image does not export.
fn addresses_of(
    alloc: Global,
    main: &Image,
    runtime: &Image,
) -> Result<Sequence<u64>, Fault<LoadRule>>
    ensures found { IfOk result (λ addresses. addresses ≡ import_addresses main.now runtime.now) }
    ensures missing { AnswersMissing result (first_missing main.now runtime.now) }
{
    let exports = Exports::of(alloc, runtime.marks.as_slice())?;
    let mut addresses = Sequence::new(alloc);
    for (index, name) in main.imports.as_slice().iter().enumerate() {
        let Some(address) = exports.find(name.as_slice()) else {
            return Err(Fault::Refused {
                rule: LoadRule::B1,
                place: index as u64,
            });
        };
        addresses.push(address)?;
    }
    Ok(addresses)
}

/// What the slots of a program are filled from, where its imports have these addresses.
fn place(main: &Image, places: &Places, slide: u16, imports: Sequence<u64>) -> Placed
    requires program { main.now.role ≡ role.Main }
    requires places { places.now ≡ places_of (header_of main.now) }
    requires order { Ordered places.now }
    requires small { places.now.end < 2 ^ 60 }
    ensures { (runtime : Image) → imports ≡ import_addresses main.now runtime → result ≡ filling main.now runtime slide }
{
    let shift = PAGE as u64 * u64::from(slide);
    let base = main.role.base() + shift;
    Placed {
        shift,
        base,
        slots_base: base + places.got as u64,
        imports,
    }
}

/// A program's segments with its slots filled, and the log of their signatures.
#[derive(Debug, Drop)]
struct Filled {
    segments: Segments,
    log: Log,
}

/// Fills the slots of a program.
fn fill_program<P: Pac>(
    alloc: Global,
    main: &Image,
    places: &Places,
    placed: &Placed,
    p: &P,
) -> Result<Filled, Memory>
    requires legal { IsLegal main.now }
    requires places { places.now ≡ places_of (header_of main.now) }
    requires order { Ordered places.now }
    requires small { places.now.end < 2 ^ 60 }
    requires place { placed.now.slots_base < 2 ^ 63 }
    requires ready { AllReady placed.now (places.now.linkedit - places.now.got) main.now.fixes }
    ensures segments { IfOk result (λ made. made.segments ≡ program_of (P.code p.now) placed.now main.now places.now) }
    ensures log { IfOk result (λ made. made.log.entries ≡ filling_log (P.code p.now) placed.now main.now.fixes) }
{
    let fixes = main.fixes.as_slice();
    let mut log = Log::new(alloc);
    log.reserve(fixes.len() as u64)?;
    let Segments {
        text,
        contents,
        linkedit,
    } = Segments::of(alloc, main, places)?;
    let mut bytes = contents.into_vec();
    fill(&mut bytes, &mut log, placed, fixes, p);
    let segments = Segments {
        text,
        contents: Bytes::from_vec(bytes),
        linkedit,
    };
    Ok(Filled { segments, log })
}

/// The memory of a program that lies at `base` with these segments, the stack, and the runtime image.
fn map_all(
    alloc: Global,
    base: u64,
    places: &Places,
    program: Segments,
    runtime: &Image,
) -> Result<Space, Memory>
    requires program { Fits base places.now program }
    requires below { base + places.now.end + 0x4000 ≤ spec.stack_base }
    requires legal { IsLegal runtime.now }
    requires small { IsSmall runtime.now }
    requires library { runtime.now.role ≡ role.Library }
    ensures { IfOk result (λ space. space ≡ memory_of base places.now program runtime.now) }
{
    let mut space = Space::new(alloc);
    program.map(&mut space, base, places)?;
    add_stack(alloc, &mut space)?;
    let runtime_places = pa_image::places(runtime);
    Segments::of(alloc, runtime, &runtime_places)?.map(
        &mut space,
        runtime.role.base(),
        &runtime_places,
    )?;
    Ok(space)
}

/// Loads a program and its runtime image: both in memory with a stack, the slots of the program filled, and those that are
/// to be signed signed under `p`. The program lies `slide` pages above where its file says. The runtime image is a library
/// whose slots need not be filled.
pub fn load<P: Pac>(
    alloc: Global,
    main: &Image,
    runtime: &Image,
    slide: u16,
    p: &P,
) -> Result<Loaded, Fault<LoadRule>>
    requires main_legal { IsLegal main.now }
    requires main_small { IsSmall main.now }
    requires program { main.now.role ≡ role.Main }
    requires runtime_legal { IsLegal runtime.now }
    requires runtime_small { IsSmall runtime.now }
    requires library { runtime.now.role ≡ role.Library }
    requires no_fixes { runtime.now.fixes ≡ [] }
    requires no_imports { runtime.now.imports ≡ [] }

    // Where it is loaded, the program begins in the one state that it has under this slide.
    ensures loaded { IfOk result (λ made. IsLoaded (P.code p.now) main.now runtime.now slide (state_of made)) }

    // It is refused exactly at the first import that the runtime image does not export.
    ensures missing { AnswersMissing result (first_missing main.now runtime.now) }

    // No two regions overlap, and none is both written and run.
    ensures apart { IfOk result (λ made. all_apart made.space ≡ true) }
    ensures write_xor_run { IfOk result (λ made. write_xor_run made.space ≡ true) }
{
    let imports = addresses_of(alloc, main, runtime)?;
    let places = pa_image::places(main);
    let placed = place(main, &places, slide, imports);
    let Filled { segments, log } = fill_program(alloc, main, &places, &placed, p)?;
    let space = map_all(alloc, placed.base, &places, segments, runtime)?;
    Ok(Loaded {
        space,
        log,
        pc: placed.base + FRONT as u64,
        sp: STACK_BASE + STACK_SIZE as u64,
    })
}
