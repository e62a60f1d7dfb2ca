//! Options while words are read.

ghost use Rattle.std.specs.Prelude.{◌≡◌, ◌<◌, ◌⊎◌, ◌++◌, [], ◌∷◌, map, string_bytes, vec_len, IsNone, IsSome, IsSomeAnd, IsTrue, true, false, OnOk, OnErr, IfOk};
ghost use Rattle.gutsirava_words.specs.Output.{knows_parts, tells_no_parts};
ghost use Rattle.gutsirava_words.specs.Draft.{has_map_file, pair_text, ViewsContradict, parts_of, texts_of, Sets, AddsEntry, Agrees, IsOneAtMost, IsText, Names, Leads, Holds, Contradicts, IsFresh};

use crate::name::is_variable;
use crate::{
    CharsetSetting, Color, Destination, EntryPoint, ExternalGlobal, FormatKind, FormatSetting,
    Iife, Key, LegalComments, LogLevel, Options, Order, Platform, SourceMap, SourcesContent,
    Switch, ViewChoices, WordsError,
};
use std::alloc::Global;

/// What the words so far have set.
pub struct Draft {
    pub alloc: Global,
    pub entries: Vec<EntryPoint>,
    pub outfile: Option<String>,
    pub outdir: Option<String>,
    pub format: FormatKind,
    pub global_name: Option<String>,
    pub globals: Vec<ExternalGlobal>,
    pub externals: Vec<String>,
    pub platform: Platform,
    pub conditions: Vec<String>,
    pub main_fields: Option<Vec<String>>,
    pub order: Order,
    pub root: Option<String>,
    pub charset: CharsetSetting,
    pub legal_comments: LegalComments,
    pub meta_url: Option<String>,
    pub source_map: SourceMap,
    pub sources_content: SourcesContent,
    pub views: ViewChoices,
    pub log_level: LogLevel,
    pub color: Color,
}

/// Lets go of it, by one function for all that stop reading.
impl Drop for Draft {
    fn drop(self) {
        let Draft {
            alloc: _alloc,
            entries: _entries,
            outfile: _outfile,
            outdir: _outdir,
            format: _format,
            global_name: _global_name,
            globals: _globals,
            externals: _externals,
            platform: _platform,
            conditions: _conditions,
            main_fields: _main_fields,
            order: _order,
            root: _root,
            charset: _charset,
            legal_comments: _legal_comments,
            meta_url: _meta_url,
            source_map: _source_map,
            sources_content: _sources_content,
            views: _views,
            log_level: _log_level,
            color: _color,
        } = self;
    }
}

impl Draft {
    /// What holds where no word was read.
    pub fn new(alloc: Global) -> Draft
        ensures { IsFresh result }
    {
        Draft {
            alloc,
            entries: Vec::new(alloc),
            outfile: None,
            outdir: None,
            format: FormatKind::Esm,
            global_name: None,
            globals: Vec::new(alloc),
            externals: Vec::new(alloc),
            platform: Platform::Node,
            conditions: Vec::new(alloc),
            main_fields: None,
            order: Order::Standard,
            root: None,
            charset: CharsetSetting::Ascii,
            legal_comments: LegalComments::Inline,
            meta_url: None,
            source_map: SourceMap::None,
            sources_content: SourcesContent::Kept,
            views: ViewChoices {
                metafile: None,
                graph: None,
                analyze: Switch::Off,
                watch: Switch::Off,
            },
            log_level: LogLevel::Info,
            color: Color::Auto,
        }
    }

    /// Adds a file, or the standard input for `-`.
    pub fn add_entry(&mut self, word: &str) -> Result<(), WordsError>
        ensures { OnOk result (AddsEntry word.now self.old self.new) }
    {
        let entry = entry_of(self.alloc, word)?;
        if matches!(entry, EntryPoint::Stdin) && self.reads_stdin() {
            return Err(WordsError::DoubledStdin);
        }
        self.entries.push(entry)?;
        Ok(())
    }

    fn reads_stdin(&self) -> bool {
        self.entries
            .iter()
            .any(|entry| matches!(entry, EntryPoint::Stdin))
    }

    /// Gives an option its value, or adds it.
    pub fn set(&mut self, key: Key, value: &str) -> Result<(), WordsError>
        ensures { OnOk result (Sets key value.now self.old self.new) }
    {
        let alloc = self.alloc;
        if value.is_empty() {
            return Err(WordsError::NoValue { key });
        }
        match key {
            Key::Format => choose(
                key,
                value,
                alloc,
                &mut self.format,
                FormatKind::from_text(value),
            ),
            Key::Platform => choose(
                key,
                value,
                alloc,
                &mut self.platform,
                Platform::from_text(value),
            ),
            Key::Order => choose(key, value, alloc, &mut self.order, Order::from_text(value)),
            Key::Charset => {
                let charset = CharsetSetting::from_text(value);
                choose(key, value, alloc, &mut self.charset, charset)
            }
            Key::LegalComments => {
                let comments = LegalComments::from_text(value);
                choose(key, value, alloc, &mut self.legal_comments, comments)
            }
            Key::SourceMap => {
                let map = SourceMap::from_text(value);
                choose(key, value, alloc, &mut self.source_map, map)
            }
            Key::SourcesContent => {
                let content = SourcesContent::from_text(value);
                choose(key, value, alloc, &mut self.sources_content, content)
            }
            Key::Analyze => {
                let switch = Switch::from_text(value);
                choose(key, value, alloc, &mut self.views.analyze, switch)
            }
            Key::Watch => {
                let switch = Switch::from_text(value);
                choose(key, value, alloc, &mut self.views.watch, switch)
            }
            Key::LogLevel => choose(
                key,
                value,
                alloc,
                &mut self.log_level,
                LogLevel::from_text(value),
            ),
            Key::Color => choose(key, value, alloc, &mut self.color, Color::from_text(value)),
            _ => self.set_text(key, value),
        }
    }

    // The same for the options that are no choice.
    fn set_text(&mut self, key: Key, value: &str) -> Result<(), WordsError>
        ensures { OnOk result (Sets key value.now self.old self.new) }
    {
        let alloc = self.alloc;
        match key {
            Key::Outfile => put_text(alloc, &mut self.outfile, value),
            Key::Outdir => put_text(alloc, &mut self.outdir, value),
            Key::Root => put_text(alloc, &mut self.root, value),
            Key::DefineMeta => put_text(alloc, &mut self.meta_url, value),
            Key::Metafile => put_text(alloc, &mut self.views.metafile, value),
            Key::Graph => put_text(alloc, &mut self.views.graph, value),
            Key::GlobalName if is_variable(value) => put_text(alloc, &mut self.global_name, value),
            Key::External if has_one_star(value) => add_text(alloc, &mut self.externals, value),
            Key::Globals => add_globals(alloc, &mut self.globals, value),
            Key::Conditions => add_parts(alloc, &mut self.conditions, key, value),
            Key::MainFields => add_fields(alloc, &mut self.main_fields, key, value),
            _ => Err(bad_value(alloc, key, value)),
        }
    }

    /// The options, or how the words contradict each other.
    pub fn finish(self) -> Result<Options, WordsError>
        ensures refused { OnErr result (Contradicts self) }
        ensures holds { IfOk result (Holds self) }
    {
        self.check()?;
        Ok(self.options())
    }

    // Refuses words that contradict each other.
    fn check(&self) -> Result<(), WordsError>
        ensures refused { OnErr result (Contradicts self.now) }
        ensures agrees { OnOk result (Agrees self.now) }
    {
        if self.entries.is_empty() {
            return Err(WordsError::NoEntry);
        }
        if self.outfile.is_some() && self.outdir.is_some() {
            return Err(WordsError::TwoOutputs);
        }
        if self.entries.len() > 1 && self.outdir.is_none() {
            return Err(WordsError::NoFolder);
        }
        if self.has_map_file() && !self.has_file() {
            return Err(WordsError::NoMapFile);
        }
        self.check_views()?;
        self.check_order()?;
        match self.format {
            FormatKind::Iife => Ok(()),
            FormatKind::Esm => self.check_module(),
        }
    }

    // Refuses what people cannot look at, or watch.
    fn check_views(&self) -> Result<(), WordsError>
        ensures { OnErr result (ViewsContradict self.now) }
    {
        if !self.has_file() {
            if self.views.metafile.is_some() {
                return Err(WordsError::NoViewFile { key: Key::Metafile });
            }
            if self.views.graph.is_some() {
                return Err(WordsError::NoViewFile { key: Key::Graph });
            }
        }
        match self.views.watch {
            Switch::On if self.reads_stdin() => Err(WordsError::WatchedStdin),
            _ => Ok(()),
        }
    }

    // Refuses what tells the parts of bundles, where these stand in the order of needs.
    fn check_order(&self) -> Result<(), WordsError>
        ensures refused { OnErr result
            (knows_parts self.now.order self.now.source_map self.now.views ≡ false) }
        ensures known { OnOk result
            (IsTrue (knows_parts self.now.order self.now.source_map self.now.views)) }
    {
        match self.order {
            Order::Standard => Ok(()),
            Order::Needs => self.check_parts(),
        }
    }

    // Refuses what tells the parts of bundles.
    fn check_parts(&self) -> Result<(), WordsError>
        ensures refused { OnErr result
            (tells_no_parts self.now.source_map self.now.views ≡ false) }
        ensures none { OnOk result
            (tells_no_parts self.now.source_map self.now.views ≡ true) }
    {
        match self.source_map {
            SourceMap::None => {}
            SourceMap::Linked | SourceMap::Inline | SourceMap::External => {
                return Err(WordsError::NoParts {
                    key: Key::SourceMap,
                });
            }
        }
        if self.views.metafile.is_some() {
            return Err(WordsError::NoParts { key: Key::Metafile });
        }
        match self.views.analyze {
            Switch::Off => Ok(()),
            Switch::On => Err(WordsError::NoParts { key: Key::Analyze }),
        }
    }

    // Whether a source map is a file.
    fn has_map_file(&self) -> bool
        ensures { result ≡ has_map_file self.now }
    {
        match self.source_map {
            SourceMap::Linked | SourceMap::External => true,
            SourceMap::None | SourceMap::Inline => false,
        }
    }

    // Whether bundles go into files.
    fn has_file(&self) -> bool
        ensures { result ≡ false → IsNone self.now.outdir }
    {
        if self.outdir.is_some() {
            return true;
        }
        match &self.outfile {
            Some(path) => path.as_str() != "-",
            None => false,
        }
    }

    // Refuses what only scripts have.
    fn check_module(&self) -> Result<(), WordsError>
        ensures refused { OnErr result
            (IsSome self.now.global_name ⊎ (0 < vec_len self.now.globals)) }
        ensures none { OnOk result (self.now.global_name ≡ None) }
        ensures empty { OnOk result (self.now.globals.items ≡ []) }
    {
        if self.global_name.is_some() {
            return Err(WordsError::OfScripts {
                key: Key::GlobalName,
            });
        }
        if !self.globals.is_empty() {
            return Err(WordsError::OfScripts { key: Key::Globals });
        }
        Ok(())
    }

    // The options of words that do not contradict each other.
    fn options(self) -> Options
        requires { Agrees self }
        ensures { Holds self result }
    {
        let Draft {
            alloc: _alloc,
            entries,
            outfile,
            outdir,
            format,
            global_name,
            globals,
            externals,
            platform,
            conditions,
            main_fields,
            order,
            root,
            charset,
            legal_comments,
            meta_url,
            source_map,
            sources_content,
            views,
            log_level,
            color,
        } = self;
        Options {
            entries,
            output: output_of(outfile, outdir),
            format: format_of(format, global_name, globals),
            externals,
            platform,
            conditions,
            main_fields,
            order,
            root,
            charset,
            legal_comments,
            meta_url,
            source_map,
            sources_content,
            views,
            log_level,
            color,
        }
    }
}

// What a word names.
fn entry_of(alloc: Global, word: &str) -> Result<EntryPoint, WordsError>
    ensures { IfOk result (Names word.now) }
{
    if word.is_empty() {
        return Err(WordsError::EmptyWord);
    }
    if word == "-" {
        return Ok(EntryPoint::Stdin);
    }
    Ok(EntryPoint::File(String::from_str(alloc, word)?))
}

// Where bundles go by the two options, of which one at most is given.
fn output_of(outfile: Option<String>, outdir: Option<String>) -> Destination
    requires { IsOneAtMost outfile outdir }
    ensures { Leads outfile outdir result }
{
    if let Some(folder) = outdir {
        return Destination::Folder(folder);
    }
    match outfile {
        Some(path) if path.as_str() != "-" => Destination::File(path),
        _ => Destination::Stdout,
    }
}

// What bundles are written as by the three options.
fn format_of(kind: FormatKind, name: Option<String>, globals: Vec<ExternalGlobal>) -> FormatSetting
    ensures script { kind ≡ FormatKind.Iife
        → result ≡ FormatSetting.Iife (record { name = name; globals = globals }) }
    ensures module_only { kind ≡ FormatKind.Esm → result ≡ FormatSetting.Esm }
{
    match kind {
        FormatKind::Iife => FormatSetting::Iife(Iife { name, globals }),
        FormatKind::Esm => FormatSetting::Esm,
    }
}

// Makes a choice, or tells that the option has no such value.
fn choose<T: Copy>(
    key: Key,
    value: &str,
    alloc: Global,
    setting: &mut T,
    choice: Option<T>,
) -> Result<(), WordsError>
    ensures { OnOk result (choice ≡ Some setting.new) }
{
    match choice {
        Some(it) => {
            *setting = it;
            Ok(())
        }
        None => Err(bad_value(alloc, key, value)),
    }
}

// Puts down a text.
fn put_text(alloc: Global, setting: &mut Option<String>, value: &str) -> Result<(), WordsError>
    ensures { OnOk result (IsText setting.new value.now) }
{
    *setting = Some(String::from_str(alloc, value)?);
    Ok(())
}

// Adds a text.
fn add_text(alloc: Global, texts: &mut Vec<String>, value: &str) -> Result<(), WordsError>
    ensures { OnOk result (map string_bytes texts.new.items
        ≡ map string_bytes texts.old.items ++ value.now ∷ []) }
{
    texts.push(String::from_str(alloc, value)?)?;
    Ok(())
}

// Whether a pattern has at most one `*`.
fn has_one_star(value: &str) -> bool {
    value.bytes().filter(|byte| *byte == b'*').count() <= 1
}

fn bad_value(alloc: Global, key: Key, value: &str) -> WordsError {
    match String::from_str(alloc, value) {
        Ok(value) => WordsError::BadValue { key, value },
        Err(_) => WordsError::OutOfMemory,
    }
}

// Adds the parts of a value between commas, none of them empty.
fn add_parts(
    alloc: Global,
    parts: &mut Vec<String>,
    key: Key,
    value: &str,
) -> Result<(), WordsError>
    ensures { OnOk result (map string_bytes parts.new.items
        ≡ map string_bytes parts.old.items ++ parts_of value.now) }
{
    for part in value.split(',') {
        if part.is_empty() {
            return Err(bad_value(alloc, key, value));
        }
        add_text(alloc, parts, part)?;
    }
    Ok(())
}

// Adds fields to those that are named so far, if any are.
fn add_fields(
    alloc: Global,
    fields: &mut Option<Vec<String>>,
    key: Key,
    value: &str,
) -> Result<(), WordsError>
    ensures { OnOk result (IsSomeAnd fields.new (λ it. map string_bytes it.items
        ≡ texts_of fields.old ++ parts_of value.now)) }
{
    let mut all = match fields.take() {
        Some(all) => all,
        None => Vec::new(alloc),
    };
    add_parts(alloc, &mut all, key, value)?;
    *fields = Some(all);
    Ok(())
}

// Adds modules with their variables, as `react=React`, with commas between them.
fn add_globals(
    alloc: Global,
    globals: &mut Vec<ExternalGlobal>,
    value: &str,
) -> Result<(), WordsError>
    ensures { OnOk result (map pair_text globals.new.items
        ≡ map pair_text globals.old.items ++ parts_of value.now) }
{
    for pair in value.split(',') {
        match pair.rsplit_once('=') {
            Some((specifier, name)) if !specifier.is_empty() && is_variable(name) => {
                add_global(alloc, globals, specifier, name)?;
            }
            _ => return Err(bad_value(alloc, Key::Globals, value)),
        }
    }
    Ok(())
}

// Adds a module with its variable.
fn add_global(
    alloc: Global,
    globals: &mut Vec<ExternalGlobal>,
    specifier: &str,
    name: &str,
) -> Result<(), WordsError>
    ensures { OnOk result (map pair_text globals.new.items
        ≡ map pair_text globals.old.items ++ (specifier.now ++ (61 ∷ name.now)) ∷ []) }
{
    globals.push(ExternalGlobal {
        specifier: String::from_str(alloc, specifier)?,
        name: String::from_str(alloc, name)?,
    })?;
    Ok(())
}
