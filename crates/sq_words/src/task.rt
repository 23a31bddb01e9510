//! The tasks that a command line can ask for, and the files that they name.
ghost use Rattle.std.specs.Prelude.{◌≡◌, Some};
ghost use Rattle.sq_words.specs.Task as spec;

/// The row numbers of each table if `--rows` is left out.
pub const USUAL_ROW_NUMBERS: u64 = 1_000_000;

/// One of a request's texts, by its index among the texts of its kind.
#[derive(Clone, Copy)]
pub enum Source {
    Schema(usize),
    Module(usize),
    Script,
}

/// A script to be run: the names of the files, and how many row numbers each table has.
#[derive(Drop)]
pub struct Request<'a> {
    /// The files of schemas, in the order of the words.
    pub schemas: Vec<&'a str>,
    /// The files of modules, in the order of the words.
    pub modules: Vec<&'a str>,
    /// The file of the script.
    pub script: &'a str,
    /// The greatest number that a row of a table may have.
    pub row_numbers: u64,
}

impl<'a> Request<'a> {
    /// The name of the file of one of the request's texts.
    pub fn file(&self, source: Source) -> &'a str
        requires { spec.HasFile self.now source }
        ensures { spec.file_of self.now source ≡ Some result.now }
    {
        match source {
            Source::Schema(index) => self.schemas[index],
            Source::Module(index) => self.modules[index],
            Source::Script => self.script,
        }
    }
}

/// Schemas and modules: the names of the files.
#[derive(Drop)]
pub struct TextsRequest<'a> {
    /// The files of schemas, in the order of the words; none where modules are bound.
    pub schemas: Vec<&'a str>,
    /// The files of modules, in the order of the words.
    pub modules: Vec<&'a str>,
}

impl<'a> TextsRequest<'a> {
    /// The name of the file of one of the request's texts, of which none is a script.
    pub fn file(&self, source: Source) -> &'a str
        requires { spec.HasCheckedFile self.now source }
        ensures { spec.checked_file_of self.now source ≡ result.now }
    {
        match source {
            Source::Schema(index) => self.schemas[index],
            Source::Module(index) => self.modules[index],
            Source::Script => "",
        }
    }
}

/// Texts to be checked, and how the remarks are written.
#[derive(Drop)]
pub struct CheckRequest<'a> {
    pub texts: TextsRequest<'a>,
    /// The file of a script.
    pub script: Option<&'a str>,
    /// Nothing but faults and refusals is said.
    pub quiet: bool,
    /// Each line is an object of JSON.
    pub json: bool,
    /// It is said, too, how the rows of tables are found.
    pub ways: bool,
}

/// A run to be traced, and what is shown beside its report.
#[derive(Drop)]
pub struct TraceRequest<'a> {
    pub run: Request<'a>,
    /// Each table that a call changed is shown.
    pub tables: bool,
    /// The trace ends at the first call that fails.
    pub stop: bool,
    /// The name of the file for a page that steps through the run.
    pub html: Option<&'a str>,
}

/// Schemas and modules whose procedures are called at a prompt, and how many row numbers each table has.
#[derive(Drop)]
pub struct ShellRequest<'a> {
    pub texts: TextsRequest<'a>,
    /// The greatest number that a row of a table may have.
    pub row_numbers: u64,
}

/// A name to be explained: a status, a refusal or a fault. Without a name, all names are listed.
#[derive(Clone, Copy)]
pub struct ExplainRequest<'a> {
    pub name: Option<&'a str>,
}

/// Which cases are to be tried, and how that is said.
#[derive(Drop)]
pub struct TestRequest<'a> {
    /// The cases are those below these folders.
    pub folders: Vec<&'a str>,
    /// Only cases are tried whose name is of one of these forms, if there is a form.
    pub filters: Vec<&'a str>,
    /// `K/N`: only each N-th case is tried, from the K-th on.
    pub shard: Option<&'a str>,
    /// The name of the file for JUnit's XML; `-` is standard output.
    pub junit: Option<&'a str>,
    /// The names of the cases are said, and none is run.
    pub list: bool,
    /// What came is written in place of what was wanted.
    pub update: bool,
}

/// The folder in which a first schema, module and script are to be written.
#[derive(Clone, Copy)]
pub struct NewRequest<'a> {
    pub folder: &'a str,
}

/// The task that a command line asks for.
#[derive(Drop)]
pub enum Task<'a> {
    Run(Request<'a>),
    Check(CheckRequest<'a>),
    Trace(TraceRequest<'a>),
    Shell(ShellRequest<'a>),
    Explain(ExplainRequest<'a>),
    Test(TestRequest<'a>),
    /// The header that binds modules to C.
    BindC(TextsRequest<'a>),
    /// The copybook that binds modules to COBOL.
    BindCobol(TextsRequest<'a>),
    New(NewRequest<'a>),
}
