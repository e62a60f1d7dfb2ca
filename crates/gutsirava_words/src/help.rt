//! What `--help` and `--version` print.

/// The version.
pub const VERSION: &str = "0.1.0\n";

/// The words of the command, on one screen.
pub const HELP: &str = "\
Bundles the modules that JavaScript files import, into one file for each.

Usage: gutsirava [OPTION].. FILE..        (- is the standard input)

Output
  -o, --outfile=FILE        the bundle of the one FILE; else the standard output
      --outdir=FOLDER       the bundle of each FILE goes into this folder
      --format=esm|iife     an ES module, or a script that calls one function
      --global-name=NAME    iife: the variable that holds what FILE exports
      --globals=NAME=VAR    iife: the variable that holds an external module
      --charset=ascii|utf8  escape what is not ASCII, or write it as it is
      --legal-comments=inline|none
                            keep comments with a licence, or drop them
      --define-meta=TEXT    what import.meta.url becomes; else it stays
      --sourcemap=none|linked|inline|external
                            a source map in a file of its own, at the end of
                            the bundle, or in a file to which nothing leads;
                            linked where no word is given
      --sources-content=true|false
                            whether a source map holds the sources

Modules
      --external=NAME       leave imports of a package, of a path or of what
                            fits a pattern with one * as they are
      --platform=node|browser
                            where the bundle will run
      --conditions=NAME,..  more conditions for exports of package.json
      --main-fields=NAME,.. the fields of package.json that name its file
      --order=standard|needs
                            in a cycle modules run as the standard has it, or
                            each statement behind what it needs
      --root=FOLDER         refuse to read files outside this folder

Views
      --metafile=FILE       what was read and written, in esbuild's form
      --analyze             tell what takes which part of each bundle
      --graph=FILE          the modules as a picture, as graph.svg
      --watch               bundle again when a file changes

Report
      --log-level=info|warning|error|silent
                            the least grave that is told
      --color=auto|always|never
                            auto: on a terminal, if there is no NO_COLOR
  -h, --help                this text
      --version             the version

Of words with bars between them, the first holds if none is given.
--external, --globals, --conditions and --main-fields may be repeated.

  gutsirava src/main.js -o dist/main.mjs
  gutsirava src/*.js --outdir=dist --platform=browser --external=react
";
