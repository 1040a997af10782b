//! Rows of texts, and what each gives behind ` => `; where nothing stands there it gives itself. The right sides follow the
//! rules of the language and were written by hand.

/// Texts, a character a byte with `¶` for a line feed, and their words: numbers with `#`, and symbols by their names.
pub const WORDS: &str = "a <> \"b\" => A NotEquals \"b\"
A 'x => bad at 2
12a => bad at 0
x 1.5a => bad at 2
1. => #1 Period
.5 => Period #5
1..2 => #1 Period Period #2
1.a => #1 Period A
1.5.2 => #1.5 Period #2
1_ => bad at 0
1Ã© => bad at 1
Aÿ => bad at 1
12345678901234567890123456789012345678 => #12345678901234567890123456789012345678
 123456789012345678901234567890123456789 => bad at 1
0000000000000000000000000000000000000.12 => bad at 0
'a''b''' => 'a'b''
''
\"a\"\"B\" => \"a\"B\"
A \"\" => bad at 2
'í\u{a0}\u{80}' => bad at 0
'À¯' => bad at 0
X\"ÿ\" => bad at 1
\"b => bad at 0
A--b => A
A--b¶c => A C
a/*b;*/c => A C
a/*/b => bad at 1
a/b => A Solidus B
<=>=|| => LessThanOrEquals GreaterThanOrEquals Concatenation
a|b => bad at 1
- -5 => MinusSign MinusSign #5
begin_x 'it;' => BEGIN_X 'it;'
_a => bad at 0
(a,b.c);=<>*+ => LeftParen A Comma B Period C RightParen Semicolon Equals NotEquals Asterisk PlusSign
\t\r¶\x0b\x0c x => X
 => ";

/// Streams, written in the same way, with the texts that end in them and what is held at their end.
pub const STREAMS: &str = "A;B => <A>held
TO 'D;X' ; => <TO 'D;X' >blank
a \"x;y\";  => <a \"x;y\">blank
a -- b; 'c¶; d => <a -- b; 'c¶>held
a /* b; ' */; => <a /* b; ' */>blank
a /*/ b; */; => <a /*/ b; */>blank
a /* **/; => <a /* **/>blank
begin a; case b; end; c; eNd; d => <begin a; case b; end; c; eNd>held
1BEGIN;BEGIN_X;\"BEGIN\"; => <1BEGIN><BEGIN_X><\"BEGIN\">blank
END; a-b/c; => <END>< a-b/c>blank
'it''s;';; => <'it''s;'><>blank
a;/* x */ -- y => <a>blank
a;/* x => <a>held
a; - => <a>held
a;'b => <a>held
CASE;END; => <CASE;END>blank
BEGIN 'END';END END; => <BEGIN 'END';END END>blank
CREATE PROCEDURE P () BEGIN ATOMIC INSERT INTO T VALUES (';', CASE WHEN 1 = 1 THEN 2 END); END; -- done;¶CREATE ROLE \"a;\"\"b\" /* ; */;SELECT => <CREATE PROCEDURE P () BEGIN ATOMIC INSERT INTO T VALUES (';', CASE WHEN 1 = 1 THEN 2 END); END>< -- done;¶CREATE ROLE \"a;\"\"b\" /* ; */>held";

/// Names, and how they are printed.
pub const NAMES: &str = "ALICE
A_1
alice => \"alice\"
1A => \"1A\"
_SYSTEM => \"_SYSTEM\"
A B => \"A B\"
\" => \"\"\"\"
SELECT => \"SELECT\"
ROLE
 => no name
ÿ => no name";

/// Expressions, and how they are printed.
pub const EXPRESSIONS: &str = "'x'
''
1.50
TRUE
FALSE
CURRENT_USER
CURRENT_DATE
CURRENT_TIME
CURRENT_TIMESTAMP
A
\"SELECT\".ADMIN
F()
S.F(A)
F(A, 1 + 2, 'x' = 'y', (SELECT * FROM T))
COUNT(*)
COUNT(A)
SUM(A + 1)
MIN(A)
MAX(- A)
AVG((A))
CASE WHEN A THEN B END
CASE WHEN A = 1 OR B THEN 'x' WHEN TRUE THEN 'y' ELSE 'z' END
CASE WHEN CASE WHEN A THEN B END THEN C ELSE CASE WHEN D THEN E END END
CAST(A AS VARCHAR(80)) => CAST(A AS CHARACTER VARYING(80))
CAST(NULL AS NUMERIC(5, 2))
CAST(A OR B AS DATE)
EXISTS (SELECT * FROM T)
(SELECT A FROM T)
(A)
((A))
- A
- 5 * - 5
A * B / C * 2
A + B - C || D
A - - B
A = B
A <> B
A < B
A <= B
A > B
A >= B + 1
A IS NULL
A IS NOT NULL
A BETWEEN 1 AND 2
A NOT BETWEEN B + 1 AND C * 2 AND D
A IN (1)
A NOT IN (1, B, C = D)
A IN (SELECT B FROM T)
A NOT IN (SELECT B FROM T UNION SELECT C FROM U)
A LIKE '%x'
A NOT LIKE B || '%'
NOT A
NOT A = B AND NOT C IS NULL OR NOT D
A AND B AND C
A OR B OR C
A OR B AND C OR D
(A = B) = (C = D)
EXISTS (SELECT A FROM T WHERE EXISTS (SELECT B FROM U WHERE T.A = U.B))
(SELECT COUNT(*) FROM T) > 5
action + USAGE.DOMAIN => ACTION + USAGE.DOMAIN
'it''s'
007.50
true => TRUE
current_user => CURRENT_USER
c => C
q.\"c\" => Q.\"c\"
\"a\"\"b\" . \"SELECT\" => \"a\"\"b\".\"SELECT\"
f() => F()
s . f ( 1 , a ) => S.F(1, A)
count ( * ) => COUNT(*)
COUNT(a) => COUNT(A)
SUM(a) => SUM(A)
MIN(a) => MIN(A)
MAX(a) => MAX(A)
AVG(a) => AVG(A)
CASE WHEN a THEN 1 END => CASE WHEN A THEN 1 END
case when a then 1 when b then 2 else 3 end => CASE WHEN A THEN 1 WHEN B THEN 2 ELSE 3 END
CAST(NULL AS int) => CAST(NULL AS INTEGER)
CAST(a AS varchar(3)) => CAST(A AS CHARACTER VARYING(3))
EXISTS (SELECT * FROM t) => EXISTS (SELECT * FROM T)
(SELECT a FROM t) => (SELECT A FROM T)
((a)) => ((A))
-a => - A
a*-b/c => A * - B / C
a+b-c||d*e => A + B - C || D * E
a=b => A = B
a<>b => A <> B
a<b => A < B
a<=b => A <= B
a>b => A > B
a>=b+1 => A >= B + 1
a IS NULL => A IS NULL
a IS NOT NULL => A IS NOT NULL
a BETWEEN 1 AND 2 AND b => A BETWEEN 1 AND 2 AND B
a NOT BETWEEN b AND c + 1 => A NOT BETWEEN B AND C + 1
a IN (SELECT b FROM t) => A IN (SELECT B FROM T)
a NOT IN (SELECT b FROM t) => A NOT IN (SELECT B FROM T)
a IN (1) => A IN (1)
a NOT IN (1, b, 'c') => A NOT IN (1, B, 'c')
a LIKE 'x%' => A LIKE 'x%'
a NOT LIKE b||'%' => A NOT LIKE B || '%'
NOT a => NOT A
not a = 1 and b or c => NOT A = 1 AND B OR C
a OR b AND NOT c OR NOT (d AND e) => A OR B AND NOT C OR NOT (D AND E)
CAST(A AS CHARACTER(1))
CAST(A AS CHARACTER VARYING(1000000))
CAST(A AS NUMERIC(5, 0))
CAST(A AS DECIMAL(18, 2))
CAST(A AS SMALLINT)
CAST(A AS INTEGER)
CAST(A AS BIGINT)
CAST(A AS BOOLEAN)
CAST(A AS DATE)
CAST(A AS TIME(0))
CAST(A AS TIMESTAMP(6))
NULL => syntax
DEFAULT => syntax
CURRENT_ROLE => syntax
VALUE => syntax
A = VALUE => syntax
(SELECT VALUE FROM T) => syntax
A B => syntax
A.B.C => syntax
A.* => syntax
SELECT => syntax
() => syntax
(A => syntax
(A, B) => syntax
F( => syntax
F(A,) => syntax
F(*) => syntax
F(DISTINCT A) => syntax
COUNT() => syntax
COUNT(A, B) => syntax
COUNT A => syntax
SUM(*) => syntax
CASE A WHEN B THEN C END => syntax
CASE WHEN A THEN B => syntax
CASE WHEN A THEN B ELSE C => syntax
CASE ELSE C END => syntax
CASE WHEN A END => syntax
CASE WHEN A THEN B ELSE C ELSE D END => syntax
CAST(A AS T) => syntax
CAST(A AS VARCHAR) => syntax
CAST(A, DATE) => syntax
EXISTS SELECT * FROM T => syntax
EXISTS (A) => syntax
- - A => syntax
+ A => syntax
A + => syntax
A = B = C => syntax
A IS TRUE => syntax
A NOT NULL => syntax
A NOT = B => syntax
A BETWEEN 1 => syntax
A BETWEEN 1 OR 2 => syntax
A IN () => syntax
A IN B => syntax
NOT NOT A => syntax
A AND => syntax
A AND OR B => syntax
A = (SELECT B FROM T => syntax";

/// Expressions in which VALUE may stand.
pub const CONDITIONS: &str = "VALUE
VALUE > 0 AND VALUE IN (SELECT A FROM T WHERE A = VALUE)
CASE WHEN VALUE THEN (VALUE) END
VALUE(A) => syntax
T.VALUE => syntax";

/// Queries, and how they are printed.
pub const QUERIES: &str = "SELECT * FROM T
SELECT DISTINCT * FROM S.T
SELECT ALL A FROM T => SELECT A FROM T
SELECT T.* FROM T
SELECT A, T.*, B AS C, D E, F.G, H(I) FROM T => SELECT A, T.*, B AS C, D AS E, F.G, H(I) FROM T
SELECT A OR B C, (D) \"e\" FROM T => SELECT A OR B AS C, (D) AS \"e\" FROM T
SELECT A ACTION FROM T DOMAIN => SELECT A AS ACTION FROM T AS DOMAIN
SELECT * FROM T AS A, S.U B, V => SELECT * FROM T AS A, S.U AS B, V
SELECT * FROM T JOIN U ON T.A = U.A
SELECT * FROM T INNER JOIN U AS X ON A OR B JOIN V ON C, W => SELECT * FROM T JOIN U AS X ON A OR B JOIN V ON C, W
SELECT * FROM T A CROSS JOIN U B JOIN V ON C WHERE D => SELECT * FROM T AS A CROSS JOIN U AS B JOIN V ON C WHERE D
SELECT A FROM T WHERE B AND NOT C
SELECT A, COUNT(*) FROM T WHERE B GROUP BY A, T.C
SELECT A FROM T GROUP BY A
SELECT A FROM T UNION SELECT B FROM U
SELECT A FROM T UNION ALL SELECT B FROM U EXCEPT SELECT C FROM V
SELECT A FROM T EXCEPT ALL SELECT ALL B FROM U WHERE C GROUP BY D => SELECT A FROM T EXCEPT ALL SELECT B FROM U WHERE C GROUP BY D
SELECT A FROM T WHERE EXISTS (SELECT * FROM U UNION SELECT * FROM V)
SELECT - 5 FROM T
SELECT T . A * B FROM T => SELECT T.A * B FROM T
 => syntax
SELECT FROM T => syntax
SELECT * => syntax
SELECT A B C FROM T => syntax
SELECT *, A FROM T => syntax
SELECT S.T.* FROM T => syntax
SELECT T.* AS X FROM T => syntax
SELECT DISTINCT ALL A FROM T => syntax
SELECT A AS FROM T => syntax
SELECT A AS SELECT FROM T => syntax
SELECT VALUE FROM T => syntax
SELECT A FROM => syntax
SELECT A FROM (SELECT B FROM T) => syntax
SELECT A FROM T, => syntax
SELECT A FROM T JOIN U => syntax
SELECT A FROM T CROSS JOIN U ON B => syntax
SELECT A FROM T INNER U ON B => syntax
SELECT A FROM T ON B => syntax
SELECT A FROM T WHERE => syntax
SELECT A FROM T GROUP A => syntax
SELECT A FROM T GROUP BY A + 1 => syntax
SELECT A FROM T GROUP BY A WHERE B => syntax
SELECT A FROM T UNION => syntax
SELECT A FROM T UNION DISTINCT SELECT B FROM U => syntax
SELECT A FROM T UNION (SELECT B FROM U) => syntax
(SELECT A FROM T) => syntax
SELECT * FROM t => SELECT * FROM T
SELECT ALL a, b c, s.f(d) AS e, q.* FROM s.t AS q, u x => SELECT A, B AS C, S.F(D) AS E, Q.* FROM S.T AS Q, U AS X
SELECT DISTINCT a FROM t WHERE a = 1 AND b GROUP BY a, q.b => SELECT DISTINCT A FROM T WHERE A = 1 AND B GROUP BY A, Q.B
SELECT * FROM t INNER JOIN u ON a = b CROSS JOIN w JOIN x AS y ON c, z => SELECT * FROM T JOIN U ON A = B CROSS JOIN W JOIN X AS Y ON C, Z
SELECT a FROM t UNION SELECT b FROM u UNION ALL SELECT c FROM w => SELECT A FROM T UNION SELECT B FROM U UNION ALL SELECT C FROM W
SELECT a FROM t WHERE b EXCEPT SELECT b FROM u GROUP BY c EXCEPT ALL SELECT c FROM w => SELECT A FROM T WHERE B EXCEPT SELECT B FROM U GROUP BY C EXCEPT ALL SELECT C FROM W";
