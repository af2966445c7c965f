// A sheet in storage, and what can be done with it: made, emptied, added to at its end, looked at.
ghost use Rattle.std.specs.Prelude.{◌≡◌, ℕ, ◌+◌, ◌<◌, ◌≤◌, [], ◌∷◌, ◌++◌, length, IfOk, IfErr, OnOk, OnErr, vec_len, vec_capacity, drop};
ghost use Rattle.std.specs.List.{slice_get};
ghost use Rattle.std.specs.Option.{option_map};
ghost use Rattle.sheet.specs.View.{empty_sheet, with_library, with_methods, on_last, with_code, with_handlers, pushed, bare, instructions_in, handlers_in, method_at, last_method};
ghost use Rattle.sheet.specs.Reading.{none};
ghost use Rattle.sheet_store.specs.Adding.{AddRefused, NoRoom, whole};
ghost use Rattle.sheet_store.specs.Fields.{HasRoom};
ghost use Rattle.sheet_store.specs.Tiles.{begin, start, Ordered};

use sheet::records::{Shape, Signature};
use std::alloc::{AllocError, Global};
use std::error::Error;
use std::fmt;
use std::marker::Model;

// How many of each a sheet may have, of instructions and handlers in all its methods together.
pub const LIBRARY_METHODS: usize = 32;

pub const OWN_METHODS: usize = 16;

pub const INSTRUCTIONS: usize = 2048;

pub const HANDLERS: usize = 256;

// An own method in storage: where its code and its handlers begin.
// They end where the next method's begin.
// Beginnings into two lists, not lists of its own: memory is reserved once, for all methods together.
#[derive(Clone, Copy)]
struct Header {
    shape: Shape,
    code_begin: usize,
    handlers_begin: usize,
}

// A part of a method: its code, or its handlers.
// It is there so that the invariant of the beginnings and its lemmas are stated once, for both parts.
#[derive(Clone, Copy)]
enum Part {
    Code,
    Handlers,
}

impl Header {
    // Where this part of the method begins.
    fn begin(&self, part: Part) -> usize
        ensures { result ≡ begin part self.now }
    {
        match part {
            Part::Code => self.code_begin,
            Part::Handlers => self.handlers_begin,
        }
    }
}

// Why nothing is added to a sheet.
#[derive(Clone, Copy, Debug, PartialEq, Eq)]
pub enum AddFault {
    // There is no method that it could belong to.
    NoMethod,
    // A sheet may not have more of it.
    Full,
}

impl fmt::Display for AddFault {
    ghost use Rattle.std.specs.Prelude.{Some};
    ghost use Rattle.sheet_store.specs.Adding.{fault_words};

    ghost output = { λ fault. Some (fault_words fault) };

    fn fmt<W: fmt::Write>(&self, f: &mut fmt::Formatter<W>) -> fmt::Result {
        f.write_str(match self {
            AddFault::NoMethod => "there is no method to add it to",
            AddFault::Full => "a sheet may not have more of it",
        })
    }
}

impl Error for AddFault {}

// A sheet in memory that is reserved for the largest one, so that nothing after the making can want
// memory. Its instructions are of one sort `I` and its handlers of one sort `H`.
// Contracts see it as the sheet that it holds.
#[derive(Drop)]
pub struct StoredSheet<I, H> {
    library: Vec<Signature>,
    methods: Vec<Header>,
    code: Vec<I>,
    handlers: Vec<H>,
}

impl<I, H> Model for StoredSheet<I, H> {
    ghost use Rattle.sheet.specs.View.{Sheet};
    ghost use Rattle.sheet_store.specs.Stored.{sheet_in};

    ghost Value = { Sheet I H };

    ghost use Rattle.sheet_store.specs.Fields.{IsStored};

    ghost view = { λ s. sheet_in s.library.items s.methods.items s.code.items s.handlers.items };

    ghost invariant = { IsStored };
}

impl<I: Copy, H: Copy> StoredSheet<I, H> {
    // An empty sheet, with memory for the largest.
    pub fn new(heap: Global) -> Result<StoredSheet<I, H>, AllocError>
        ensures { IfOk result (λ s. s ≡ empty_sheet) }
    {
        let library = Vec::with_capacity(heap, LIBRARY_METHODS)?;
        let methods = Vec::with_capacity(heap, OWN_METHODS)?;
        let code = Vec::with_capacity(heap, INSTRUCTIONS)?;
        let handlers = Vec::with_capacity(heap, HANDLERS)?;
        Ok(StoredSheet {
            library,
            methods,
            code,
            handlers,
        })
    }

    // Takes everything out again; the memory stays.
    pub fn clear(&mut self)
        ensures { self.new ≡ empty_sheet }
    {
        self.library.clear();
        self.methods.clear();
        self.code.clear();
        self.handlers.clear();
    }

    // The library methods.
    pub fn library(&self) -> &[Signature]
        ensures value { result.now ≡ self.now.library }
        ensures few { length result.now ≤ 32 }
    {
        &self.library[..]
    }

    // How many own methods there are.
    pub fn method_count(&self) -> usize
        ensures value { result ≡ length self.now.methods }
        ensures few { result ≤ 16 }
    {
        self.methods.len()
    }

    // How many instructions there are, in all methods.
    pub fn instruction_count(&self) -> usize
        ensures value { result ≡ instructions_in self.now.methods }
        ensures few { result ≤ 2048 }
    {
        self.code.len()
    }

    // How many handlers there are, in all methods.
    pub fn handler_count(&self) -> usize
        ensures value { result ≡ handlers_in self.now.methods }
        ensures few { result ≤ 256 }
    {
        self.handlers.len()
    }

    // One library method more; a sheet that has no place for it is left as it is.
    // Of the faults only Full can come.
    pub fn add_signature(&mut self, signature: Signature) -> Result<(), AddFault>
        ensures ok { OnOk result
            (self.new ≡ with_library (pushed signature self.old.library) self.old) }
        ensures room { OnOk result (length self.old.library < 32) }
        ensures err { IfErr result (λ e. e ≡ AddFault.Full) }
        ensures full { OnErr result (length self.old.library ≡ 32) }
        ensures unchanged { OnErr result (self.new ≡ self.old) }
    {
        push_within(&mut self.library, LIBRARY_METHODS, signature)
    }

    // One own method more, without instructions and handlers; a sheet that has no place for it is left as it is.
    // Of the faults only Full can come.
    pub fn add_method(&mut self, shape: Shape) -> Result<(), AddFault>
        ensures ok { OnOk result
            (self.new ≡ with_methods (pushed (bare shape) self.old.methods) self.old) }
        ensures room { OnOk result (length self.old.methods < 16) }
        ensures err { IfErr result (λ e. e ≡ AddFault.Full) }
        ensures full { OnErr result (length self.old.methods ≡ 16) }
        ensures unchanged { OnErr result (self.new ≡ self.old) }
    {
        let header = Header {
            shape,
            code_begin: self.code.len(),
            handlers_begin: self.handlers.len(),
        };
        push_within(&mut self.methods, OWN_METHODS, header)
    }

    // One instruction more in the last method; a sheet without a method, or without a place for it, is left as it is.
    pub fn add_instruction(&mut self, instruction: I) -> Result<(), AddFault>
        ensures ok { OnOk result (self.new
            ≡ with_methods (on_last (with_code (pushed instruction)) self.old.methods) self.old) }
        ensures method { OnOk result (0 < length self.old.methods) }
        ensures room { OnOk result (instructions_in self.old.methods < 2048) }
        ensures err { IfErr result (λ e.
            AddRefused e (length self.old.methods) (instructions_in self.old.methods) 2048) }
        ensures unchanged { OnErr result (self.new ≡ self.old) }
    {
        if self.methods.is_empty() {
            return Err(AddFault::NoMethod);
        }
        push_within(&mut self.code, INSTRUCTIONS, instruction)
    }

    // One handler more in the last method; a sheet without a method, or without a place for it, is left as it is. This and the
    // one for instructions stay two, with `push_within` in both: each has a list, a limit and a definition of its own.
    pub fn add_handler(&mut self, handler: H) -> Result<(), AddFault>
        ensures ok { OnOk result (self.new
            ≡ with_methods (on_last (with_handlers (pushed handler)) self.old.methods) self.old) }
        ensures method { OnOk result (0 < length self.old.methods) }
        ensures room { OnOk result (handlers_in self.old.methods < 256) }
        ensures err { IfErr result (λ e.
            AddRefused e (length self.old.methods) (handlers_in self.old.methods) 256) }
        ensures unchanged { OnErr result (self.new ≡ self.old) }
    {
        if self.methods.is_empty() {
            return Err(AddFault::NoMethod);
        }
        push_within(&mut self.handlers, HANDLERS, handler)
    }

    // One own method more, with its instructions and handlers; a sheet that has no place for them is left as it is.
    pub fn add_whole(&mut self, shape: Shape, code: &[I], handlers: &[H]) -> Result<(), AddFault>
        ensures ok { OnOk result (self.new
            ≡ with_methods (pushed (whole shape code.now handlers.now) self.old.methods) self.old) }
        ensures err { IfErr result (λ e. e ≡ AddFault.Full) }
        ensures full { OnErr result
            (NoRoom self.old.methods (length code.now) (length handlers.now)) }
        ensures unchanged { OnErr result (self.new ≡ self.old) }
    {
        let code_begin = self.code.len();
        let handlers_begin = self.handlers.len();
        if code.len() > INSTRUCTIONS - code_begin || handlers.len() > HANDLERS - handlers_begin {
            return Err(AddFault::Full);
        }
        let header = Header {
            shape,
            code_begin,
            handlers_begin,
        };
        push_within(&mut self.methods, OWN_METHODS, header)?;
        fill_reserved(&mut self.code, code);
        fill_reserved(&mut self.handlers, handlers);
        Ok(())
    }

    // Empty but for this library; a library that is too large leaves the sheet as it is.
    pub fn restart(&mut self, library: &[Signature]) -> Result<(), AddFault>
        ensures ok { OnOk result (self.new ≡ record { library = library.now; methods = [] }) }
        ensures err { IfErr result (λ e. e ≡ AddFault.Full) }
        ensures full { OnErr result (32 < length library.now) }
        ensures unchanged { OnErr result (self.new ≡ self.old) }
    {
        if library.len() > LIBRARY_METHODS {
            return Err(AddFault::Full);
        }
        self.clear();
        fill_reserved(&mut self.library, library);
        Ok(())
    }

    // Whether the last method has no handler; true where there is no method.
    pub fn last_has_no_handler(&self) -> bool
        ensures { result ≡ none (last_method self.now.methods).handlers }
    {
        match self.methods.last() {
            Some(header) => header.handlers_begin == self.handlers.len(),
            None => true,
        }
    }

    // The own method of this number, without its instructions and handlers.
    pub fn shape(&self, method: usize) -> Option<Shape>
        ensures { result ≡ option_map (λ m. m.shape) (slice_get self.now.methods method) }
    {
        self.methods.get(method).map(|header| header.shape)
    }

    // The instructions of the own method of this number; none where there is no such method.
    pub fn code(&self, method: usize) -> &[I]
        ensures { result.now ≡ (method_at self.now method).code }
    {
        let (begin, end) = bounds(&self.methods, method, Part::Code, self.code.len());
        &self.code[begin..end]
    }

    // The handlers of the own method of this number; none where there is no such method.
    pub fn handlers(&self, method: usize) -> &[H]
        ensures { result.now ≡ (method_at self.now method).handlers }
    {
        let (begin, end) = bounds(&self.methods, method, Part::Handlers, self.handlers.len());
        &self.handlers[begin..end]
    }
}

// One more in a list that may have so many; a full one is left as it is.
fn push_within<T: Copy>(list: &mut Vec<T>, most: usize, x: T) -> Result<(), AddFault>
    requires { HasRoom most list.old }
    ensures reserved { HasRoom most list.new }
    ensures ok { OnOk result (list.new.items ≡ pushed x list.old.items) }
    ensures room { OnOk result (vec_len list.old < most) }
    ensures err { IfErr result (λ e. e ≡ AddFault.Full) }
    ensures full { OnErr result (vec_len list.old ≡ most) }
    ensures unchanged { OnErr result (list.new ≡ list.old) }
{
    if list.len() >= most {
        return Err(AddFault::Full);
    }
    list.push_reserved(x);
    Ok(())
}

// Adds a block behind all. There is memory for it, and it stays as much, which `extend_from_slice` of std does not promise.
fn fill_reserved<T: Copy>(list: &mut Vec<T>, block: &[T])
    requires { vec_len list.old + length block.now ≤ vec_capacity list.old }
    ensures capacity { vec_capacity list.new ≡ vec_capacity list.old }
    ensures items { list.new.items ≡ list.old.items ++ block.now }
    ensures count { vec_len list.new ≡ vec_len list.old + length block.now }
{
    for x in block {
        list.push_reserved(*x);
    }
}

// From where to where a method's part stands in a list of n: up to where the next method's begins.
fn bounds(headers: &[Header], method: usize, part: Part, n: usize) -> (usize, usize)
    requires { Ordered part headers.now n }
    ensures begins { result.0 ≡ start part (drop method headers.now) n }
    ensures ends { result.1 ≡ start part (drop 1 (drop method headers.now)) n }
    ensures in_order { result.0 ≤ result.1 }
    ensures within { result.1 ≤ n }
{
    match headers.get(method..) {
        Some([this, next, ..]) => (this.begin(part), next.begin(part)),
        Some([this]) => (this.begin(part), n),
        _ => (n, n),
    }
}
